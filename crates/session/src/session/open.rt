// A session is opened on a task, costs and the values of a state.
ghost use Rattle.std.specs.Prelude.{Decides};
ghost use Rattle.session.specs.Opening.{Opened, Payable};
ghost use Rattle.tasks.specs.View.{model_of};

use super::Session;
use super::refusal::Refusal;
use crate::rows::Rows;
use std::alloc::Global;
use tasks::Task;

fn payable(costs: &[u32]) -> bool
    ensures { Decides result (Payable costs.now) }
{
    costs.iter().all(|c| *c < 65536)
}

impl Session {
    // No operator is barred, no step is under way, and the wear is 0.
    pub fn open(heap: Global, task: &Task, costs: &[u32], values: &[u8]) -> Result<Session, Refusal>
        ensures { Opened (model_of task.now) costs.now values.now result }
    {
        if costs.len() != states::operators(task) {
            return Err(Refusal::NoSuch);
        }
        states::rank(task, values).map_err(|_| Refusal::NoSuch)?;
        // Before any memory is asked for: a cost too high is told even where there is none.
        if !payable(costs) {
            return Err(Refusal::CostTooHigh);
        }
        let task = task.clone()?;
        let state = Vec::from_slice(heap, values)?;
        let rows = Rows::new(heap, costs)?;
        Ok(Session {
            task,
            state,
            rows,
            step: None,
            wear: 0,
        })
    }
}
