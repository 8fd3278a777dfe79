// What a card tells: its task, start values, costs and patterns.
ghost use Rattle.std.specs.Prelude.{◌≡◌, map, IfOk, vec_items};
ghost use Rattle.tasks.specs.Contents.{contents, model_in, starts, costs};
ghost use Rattle.tasks.specs.View.{model_of};

use super::Card;
use crate::task::Task;
use std::alloc::{AllocError, Global};

impl<'a> Card<'a> {
    pub fn task(&self) -> &Task
        ensures { model_of result.now ≡ model_in self.now }
    {
        &self.task
    }

    // The value that each variable starts with.
    #[tactic(auto, using(crate::proofs::Collecting::map_collected))]
    pub fn start(&self, heap: Global) -> Result<Vec<u8>, AllocError>
        ensures { IfOk result (λ v. v.items ≡ starts (contents self.now)) }
    {
        self.draft.variables.iter().map(|v| v.start).collect(heap)
    }

    // The cost of each operator.
    #[tactic(auto, using(crate::proofs::Collecting::map_collected))]
    pub fn costs(&self, heap: Global) -> Result<Vec<u16>, AllocError>
        ensures { IfOk result (λ v. v.items ≡ costs (contents self.now)) }
    {
        self.draft.operators.iter().map(|o| o.cost).collect(heap)
    }

    // The patterns of the T lines, each by its variables.
    pub fn patterns(&self) -> &[Vec<u8>]
        ensures { map vec_items result.now ≡ (contents self.now).patterns }
    {
        self.draft.patterns.as_slice()
    }
}
