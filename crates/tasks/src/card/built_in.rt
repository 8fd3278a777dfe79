// The card to read over: the smallest task under a name of its own.
ghost use Rattle.std.specs.Prelude.{◌≡◌, [], ◌∷◌, IfOk, None, codes};
ghost use Rattle.cards.specs.Content.{task_of};
ghost use Rattle.tasks.specs.Contents.{contents, model_in};

use super::Card;
use crate::task::Task;
use drafts::{Draft, Variable};
use fields::{Field, Place};
use std::alloc::{AllocError, Global};

impl<'a> Card<'a> {
    // One variable of two values, `idle`, that starts at 0; no goal, no operator and no pattern.
    pub fn built_in(heap: Global) -> Result<Card<'a>, AllocError>
        ensures contents { IfOk result (λ k. contents k ≡ record { variables = record { name = codes "idle"; size = 2; start = 0; goal = None } ∷ []; operators = []; patterns = [] }) }
        ensures task { IfOk result (λ k. model_in k ≡ task_of (contents k)) }
    {
        let idle = Variable {
            name: Field::Name {
                text: b"idle",
                place: Place { line: 0, field: 0 },
            },
            size: 2,
            start: 0,
            goal: None,
        };
        let draft = Draft {
            variables: vec![in heap; idle]?,
            operators: Vec::new(heap),
            patterns: Vec::new(heap),
        };
        Ok(Card {
            task: Task::smallest(heap)?,
            draft,
        })
    }
}
