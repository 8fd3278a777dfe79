// A projected task, ready for steps from rank to rank, forwards and backwards.
ghost use Rattle.projections.specs.Parts.{model};
ghost use Rattle.projections.specs.Shapes.{Shaped};

use crate::axes::Axes;
use crate::moves::Move;
use sas::Fact;

mod makes;
mod reads;

// The kept variables, the goal, and the operators: all of them, so that each goes by its number in the whole task.
#[derive(Drop)]
pub struct Projection {
    axes: Axes,
    goal: Vec<Fact>,
    moves: Vec<Move>,
    ghost shaped: { ∥ Shaped (model axes.list.items goal moves) ∥₁ },
}
