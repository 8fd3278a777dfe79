// A table over lent entries.
ghost use Rattle.projections.specs.View.{places_of, view_of};
ghost use Rattle.tables.specs.Opened.{Opened};
ghost use Rattle.tasks.specs.View.{model_of};

use projections::Projection;
use tasks::Task;

pub mod estimates;
mod opening;

// The entries of every table obey the laws of an estimator in the projection of its task onto its pattern.
#[derive(Drop)]
pub struct Table<'a> {
    own: Task,
    pattern: Vec<u8>,
    projection: Projection,
    shares: Vec<u32>,
    entries: &'a [u64],
    ghost opened: { ∥ Opened (model_of own) pattern.items (view_of projection) (places_of projection) shares.items entries.now ∥₁ },
}
