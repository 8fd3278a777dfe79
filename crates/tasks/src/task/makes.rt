// Tasks are made inside this crate alone, from parts that are known to keep the rules.
ghost use Rattle.std.specs.Prelude.{◌≡◌, [], ◌∷◌, IfOk};
ghost use Rattle.sas.specs.Model.{Rules};
ghost use Rattle.tasks.specs.Parts.{action, model};
ghost use Rattle.tasks.specs.View.{model_of};

use super::{Operator, Task};
use sas::{Fact, Precondition};
use std::alloc::{AllocError, Global};

impl Operator {
    pub(crate) fn new(preconditions: Vec<Precondition>, effects: Vec<Fact>) -> Operator
        ensures { action result ≡ record { preconditions = preconditions.items; effects = effects.items } }
    {
        Operator {
            preconditions,
            effects,
        }
    }
}

impl Task {
    pub(crate) fn new(sizes: Vec<u8>, goal: Vec<Fact>, operators: Vec<Operator>) -> Task
        requires { Rules (model sizes goal operators) }
        ensures { model_of result ≡ model sizes goal operators }
    {
        Task {
            sizes,
            goal,
            operators,
        }
    }

    // One variable of two values, no goal and no operator: the one task that is not read from a card.
    pub fn smallest(heap: Global) -> Result<Task, AllocError>
        ensures { IfOk result (λ t. model_of t ≡ record { sizes = 2 ∷ []; goal = []; operators = [] }) }
    {
        Ok(Task {
            sizes: vec![in heap; 2]?,
            goal: Vec::new(heap),
            operators: Vec::new(heap),
        })
    }
}
