// What is left of an operator in a projected task.
ghost use Rattle.std.specs.Prelude.{◌≡◌, map};
ghost use Rattle.projections.specs.Asked.{as_precondition, at_zero};
ghost use Rattle.projections.specs.Origins.{unasked};

use sas::Fact;

// What is asked and what is set, and the variables that are set without being asked for, at their value 0.
#[derive(Drop)]
pub(crate) struct Move {
    pub(crate) asked: Vec<Fact>,
    pub(crate) effects: Vec<Fact>,
    pub(crate) free: Vec<Fact>,
    ghost frees: { free.items ≡ map at_zero (unasked (map as_precondition asked.items) effects.items) },
}
