// A second task of the same model.
ghost use Rattle.std.specs.Prelude.{◌≡◌, IfOk};
ghost use Rattle.tasks.specs.Parts.{action};
ghost use Rattle.tasks.specs.View.{model_of};

use super::{Operator, Task};
use std::alloc::AllocError;

// By hand: under a derive each part is cloned by itself, while a slice of parts is copied at once.
impl Clone for Operator {
    ghost is_clone = { λ o p. action p ≡ action o };

    fn clone(&self) -> Result<Operator, AllocError>
        ensures { IfOk result (λ p. action p ≡ action self.now) }
    {
        let heap = *self.effects.allocator();
        Ok(Operator {
            preconditions: Vec::from_slice(heap, &self.preconditions)?,
            effects: Vec::from_slice(heap, &self.effects)?,
        })
    }
}

// By hand: a derive takes no type with a ghost field.
impl Clone for Task {
    ghost is_clone = { λ t u. model_of u ≡ model_of t };

    #[tactic(auto, using(crate::proofs::Operators::actions_cloned, std::proofs::lemmas::List::Elements::same_from_all_zip))]
    fn clone(&self) -> Result<Task, AllocError>
        ensures { IfOk result (λ t. model_of t ≡ model_of self.now) }
    {
        Ok(Task {
            sizes: self.sizes.clone()?,
            goal: self.goal.clone()?,
            operators: self.operators.clone()?,
        })
    }
}
