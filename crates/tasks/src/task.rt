// A planning task: variables with finitely many values, a goal, and operators.
ghost use Rattle.sas.specs.Model.{Rules};
ghost use Rattle.tasks.specs.Parts.{model};

use sas::{Fact, Precondition};

mod copies;
mod makes;
mod reads;

// What an operator asks of a state, and what it does to one.
#[derive(Drop)]
pub struct Operator {
    preconditions: Vec<Precondition>,
    effects: Vec<Fact>,
}

// Every task keeps the rules of a bench: counts, ranges, no variable twice, at most 1,048,576 states.
#[derive(Drop)]
pub struct Task {
    sizes: Vec<u8>,
    goal: Vec<Fact>,
    operators: Vec<Operator>,
    ghost rules: { ∥ Rules (model sizes goal operators) ∥₁ },
}
