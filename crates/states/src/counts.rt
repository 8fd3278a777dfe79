// How many variables, values, operators and states a task has.
ghost use Rattle.std.specs.Prelude.{◌≡◌, ◌<◌, ◌≤◌, length, MatchOption, slice_index};
ghost use Rattle.sas.specs.Ranks.{states};
ghost use Rattle.tasks.specs.View.{model_of};

use tasks::Task;

pub fn variables(task: &Task) -> usize
    ensures count { result ≡ length (model_of task.now).sizes }
    ensures few { result ≤ 16 }
{
    task.sizes().len()
}

// The number of values of a variable.
pub fn size(task: &Task, variable: usize) -> Option<u8>
    ensures { MatchOption result (length (model_of task.now).sizes ≤ variable) (λ z. (variable < length (model_of task.now).sizes) × (z ≡ slice_index (model_of task.now).sizes variable)) }
{
    task.sizes().get(variable).copied()
}

pub fn operators(task: &Task) -> usize
    ensures count { result ≡ length (model_of task.now).operators }
    ensures few { result ≤ 128 }
{
    task.operators().len()
}

pub fn state_count(task: &Task) -> usize
    ensures count { result ≡ states (model_of task.now) }
    ensures few { result ≤ 1048576 }
{
    task.sizes().iter().map(|size| usize::from(*size)).product()
}
