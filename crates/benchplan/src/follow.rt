// Follows the steps of a plan as a session's check does, but by a card's costs and with no session: none is opened for it.
ghost use Rattle.std.specs.Prelude.{IfSome};
ghost use Rattle.benchplan.specs.Plans.{Runs};
ghost use Rattle.tasks.specs.View.{model_of};

use states::{apply, is_goal};
use tasks::Task;

// What the steps cost, if they run from `values` to a goal state.
pub fn follow(task: &Task, costs: &[u16], values: &mut [u8], steps: &[usize]) -> Option<u64>
    ensures { IfSome result (λ c. Runs (model_of task.now) values.old costs.now steps.now c) }
{
    let mut cost: u64 = 0;
    for step in steps {
        let price = costs.get(*step)?;
        if !apply(task, *step, values) {
            return None;
        }
        cost = cost.checked_add(u64::from(*price))?;
    }
    is_goal(task, values).then_some(cost)
}
