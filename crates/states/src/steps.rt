// Where operators apply, what they make of a state, and where the goal holds; by state and by rank.
ghost use Rattle.std.specs.Prelude.{◌≡◌, ℕ, ◌<◌, true, false, List, length, Decides, MatchOption, slice_index};
ghost use Rattle.sas.specs.Ranks.{GoalRank, StepRank, states};
ghost use Rattle.sas.specs.States as States;
ghost use Rattle.sas.specs.States.{Applies, Goal, Step, outcome};
ghost use Rattle.std.specs.List.{AllByRecursion};
ghost use Rattle.states.specs.Ranked.{RankOf};
ghost use Rattle.tasks.specs.Parts.{action};
ghost use Rattle.tasks.specs.View.{model_of};

use crate::ranks::{at_rank, is_state, rank};
use sas::Fact;
use tasks::{Operator, Task};

// Whether a variable is there and has a value.
fn has_value(values: &[u8], variable: u8, value: u8) -> bool
    ensures { Decides result ((variable < length values.now) × (slice_index values.now variable ≡ value)) }
{
    values.get(usize::from(variable)) == Some(&value)
}

// The operator of a number, where it applies to the values of a state.
fn applying<'t>(task: &'t Task, operator: usize, values: &[u8]) -> Option<&'t Operator>
    ensures { MatchOption result (Applies (model_of task.now) operator values.now → ⊥) (λ one. Applies (model_of task.now) operator values.now × (action one.now ≡ States.operator (model_of task.now) operator)) }
{
    let one = task.operators().get(operator)?;
    // By cases: under `then_some` what the two tests show is known of their `&&` alone.
    if is_state(task, values)
        && one
            .preconditions()
            .iter()
            .all(|p| has_value(values, p.variable, p.value))
    {
        Some(one)
    } else {
        None
    }
}

// Whether an operator applies to the values of a state.
pub fn applies(task: &Task, operator: usize, values: &[u8]) -> bool
    ensures { Decides result (Applies (model_of task.now) operator values.now) }
{
    applying(task, operator, values).is_some()
}

// Whether the values are those of a goal state.
pub fn is_goal(task: &Task, values: &[u8]) -> bool
    ensures { Decides result (Goal (model_of task.now) values.now) }
{
    is_state(task, values)
        && task
            .goal()
            .iter()
            .all(|f| has_value(values, f.variable, f.value))
}

// Puts effects in.
fn put(effects: &[Fact], values: &mut [u8])
    requires { AllByRecursion (λ f. f.variable < length values.old) effects.now }
    ensures { values.new ≡ outcome effects.now values.old }
{
    for f in effects {
        values[usize::from(f.variable)] = f.value;
    }
}

// Makes the step of an operator, if it applies.
pub fn apply(task: &Task, operator: usize, values: &mut [u8]) -> bool
    ensures moved { result ≡ true → Step (model_of task.now) operator values.old values.new }
    ensures kept { result ≡ false → values.new ≡ values.old }
    ensures refused { result ≡ false → Applies (model_of task.now) operator values.old → ⊥ }
{
    let Some(one) = applying(task, operator, values) else {
        return false;
    };
    put(one.effects(), values);
    true
}

// The rank of what an operator makes of the values of a state.
fn rank_after(task: &Task, operator: usize, values: &mut [u8]) -> Option<usize>
    ensures { MatchOption result (Applies (model_of task.now) operator values.old → ⊥) (λ t. (u : List ℕ) × Step (model_of task.now) operator values.old u × RankOf (model_of task.now) u t) }
{
    if !apply(task, operator, values) {
        return None;
    }
    rank(task, values).ok()
}

// The rank to which an operator leads.
pub fn successor(task: &Task, operator: usize, rank: usize) -> Option<usize>
    ensures { MatchOption result ((t : ℕ) → StepRank (model_of task.now) operator rank t → ⊥) (λ t. StepRank (model_of task.now) operator rank t × (t < states (model_of task.now))) }
{
    at_rank(task, rank, |values| rank_after(task, operator, values)).flatten()
}

// Whether a number is the rank of a goal state.
pub fn is_goal_rank(task: &Task, rank: usize) -> bool
    ensures { Decides result (GoalRank (model_of task.now) rank) }
{
    at_rank(task, rank, |values| is_goal(task, values)).unwrap_or(false)
}
