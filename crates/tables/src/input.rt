// Tests of what a table is asked for.
ghost use Rattle.std.specs.Prelude.{Decides};
ghost use Rattle.tables.specs.Input.{TableInput};
ghost use Rattle.tasks.specs.View.{model_of};

use tasks::Task;

// The highest share that a table may be built or opened with.
const HIGHEST_SHARE: u32 = 65535;

// Whether the pattern is a set of variables of the task, not empty, and each operator has a share that may be.
pub(crate) fn is_fit(task: &Task, pattern: &[u8], shares: &[u32]) -> bool
    ensures { Decides result (TableInput (model_of task.now) pattern.now shares.now) }
{
    let count = task.sizes().len();
    !pattern.is_empty()
        && shares.len() == task.operators().len()
        && pattern.iter().all(|v| usize::from(*v) < count)
        && shares.iter().all(|share| *share <= HIGHEST_SHARE)
}
