// The graph of a pattern and shares, and what its operators cost.
ghost use Rattle.std.specs.Prelude.{◌≡◌, IfErr, IfOk, OnOk};
ghost use Rattle.projections.specs.Parts.{scales};
ghost use Rattle.projections.specs.Projection.{among, only, projected};
ghost use Rattle.projections.specs.View.{places_of};
ghost use Rattle.tables.specs.Input.{TableInput};
ghost use Rattle.tables.specs.Refusals.{WhyNotWeighted};
ghost use Rattle.tables.specs.Weighted.{cost_of, task_of};
ghost use Rattle.tasks.specs.View.{model_of};

use super::Weighted;
use crate::input::is_fit;
use crate::refusal::TableRefusal;
use projections::Projection;
use std::alloc::Global;
use tasks::Task;

impl<'a> Weighted<'a> {
    // The graph of a task seen through a pattern, at these shares.
    pub(crate) fn new(
        heap: Global,
        task: &Task,
        pattern: &[u8],
        shares: &'a [u32],
    ) -> Result<Weighted<'a>, TableRefusal>
        ensures input { OnOk result (TableInput (model_of task.now) pattern.now shares.now) }
        ensures task { IfOk result (λ g. task_of g ≡ projected (among pattern.now) (model_of task.now)) }
        ensures places { IfOk result (λ g. places_of g.projection ≡ only (among pattern.now) (scales (model_of task.now).sizes)) }
        ensures shares { IfOk result (λ g. g.shares.now ≡ shares.now) }
        ensures why { IfErr result (WhyNotWeighted (model_of task.now) pattern.now shares.now) }
    {
        if !is_fit(task, pattern, shares) {
            return Err(TableRefusal::Input);
        }
        let projection = Projection::new(heap, task, pattern)?;
        let states = projection.states();
        Ok(Weighted {
            projection,
            shares,
            states,
        })
    }

    // What an operator costs; past the last one nothing.
    pub(crate) fn share(&self, operator: usize) -> u64
        ensures { result ≡ cost_of self.now operator }
    {
        self.shares
            .get(operator)
            .map_or(0, |share| u64::from(*share))
    }
}
