// The parts of a task, gathered from what was read.
ghost use Rattle.std.specs.Prelude.{◌≡◌, map, IfOk};
ghost use Rattle.cards.specs.Content.{task_of, Lawful};
ghost use Rattle.cards.specs.Reading.{content};
ghost use Rattle.drafts.specs.View.{said};
ghost use Rattle.tasks.specs.Gathered.{action_said};
ghost use Rattle.tasks.specs.Parts.{action};
ghost use Rattle.tasks.specs.View.{model_of};

use crate::task::{Operator, Task};
use drafts::{Draft, DraftOperator};
use sas::Fact;
use std::alloc::{AllocError, Global};

// How many values each variable has.
#[tactic(auto, using(crate::proofs::Collecting::map_collected))]
fn sizes_of<'a>(heap: Global, draft: &Draft<'a>) -> Result<Vec<u8>, AllocError>
    ensures { IfOk result (λ v. v.items ≡ (task_of (content (said draft.now))).sizes) }
{
    draft.variables.iter().map(|v| v.size).collect(heap)
}

// What the goal asks, variable by variable; a draft has at most 16, so that the cast cuts nothing.
fn goal_of<'a>(heap: Global, draft: &Draft<'a>) -> Result<Vec<Fact>, AllocError>
    ensures { IfOk result (λ v. v.items ≡ (task_of (content (said draft.now))).goal) }
{
    draft
        .variables
        .iter()
        .enumerate()
        .filter_map(|(i, v)| {
            v.goal.map(|value| Fact {
                variable: i as u8,
                value,
            })
        })
        .collect(heap)
}

fn operator_of<'a>(draft: &DraftOperator<'a>) -> Result<Operator, AllocError>
    ensures { IfOk result (λ o. action o ≡ action_said draft.now) }
{
    Ok(Operator::new(draft.preconditions.clone()?, draft.effects.clone()?))
}

#[tactic(auto, using(crate::proofs::Collecting::actions_collected))]
fn operators_of<'a>(heap: Global, draft: &Draft<'a>) -> Result<Vec<Operator>, AllocError>
    ensures { IfOk result (λ v. map action v.items ≡ (task_of (content (said draft.now))).operators) }
{
    draft.operators.iter().map(operator_of).try_collect(heap)
}

// The task that a lawful draft gives.
pub(super) fn task_of<'a>(heap: Global, draft: &Draft<'a>) -> Result<Task, AllocError>
    requires { Lawful (content (said draft.now)) }
    ensures { IfOk result (λ t. model_of t ≡ task_of (content (said draft.now))) }
{
    Ok(Task::new(
        sizes_of(heap, draft)?,
        goal_of(heap, draft)?,
        operators_of(heap, draft)?,
    ))
}
