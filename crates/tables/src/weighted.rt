// The projected task of a table as a weighted graph.
ghost use Rattle.std.specs.Prelude.{◌≡◌, ℕ, ◌≤◌, length, slice_index};
ghost use Rattle.projections.specs.View.{view_of};
ghost use Rattle.sas.specs.Ranks as Ranks;

use projections::Projection;

mod makes;

// A projection, the shares that its operators cost, and how many states it has.
#[derive(Drop)]
pub(crate) struct Weighted<'a> {
    pub(crate) projection: Projection,
    pub(crate) shares: &'a [u32],
    pub(crate) states: usize,
    ghost count: { length shares.now ≡ length (view_of projection).operators },
    ghost light: { (o : ℕ) → slice_index shares.now o ≤ 65535 },
    ghost sized: { states ≡ Ranks.states (view_of projection) },
}
