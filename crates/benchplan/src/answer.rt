// From a card's bytes to an answer.
ghost use Rattle.benchplan.specs.Answers.{Answered};
ghost use Rattle.benchplan.specs.Plans.{Kept};
ghost use Rattle.tasks.specs.Contents.{contents, model_in, starts, costs};

use crate::follow::follow;
use crate::refusal::Refusal;
use crate::search::find;
use states::{rank, state_count};
use std::alloc::Global;
use tasks::Card;

// The program's memory is for so many states.
const MOST_STATES: usize = 1024;

// The operators in their order, and what they cost.
#[derive(Drop)]
pub struct Plan {
    pub steps: Vec<usize>,
    pub cost: u64,
}

// The answer to a card that was read.
fn planned<'a>(heap: Global, card: &Card<'a>) -> Result<Plan, Refusal>
    ensures { Kept (model_in card.now) (starts (contents card.now)) (costs (contents card.now)) result }
{
    let task = card.task();
    if state_count(task) > MOST_STATES {
        return Err(Refusal::TooManyStates);
    }
    let mut values = card.start(heap)?;
    let costs = card.costs(heap)?;
    let start = rank(task, &values).map_err(|_| Refusal::Astray)?;
    let steps = find(heap, task, &costs, start)?.ok_or(Refusal::NoPlan)?;
    let cost = follow(task, &costs, &mut values, &steps).ok_or(Refusal::Astray)?;
    Ok(Plan { steps, cost })
}

// Reads a card over `card`, and plans.
pub fn plan_card<'a>(heap: Global, card: &mut Card<'a>, bytes: &'a [u8]) -> Result<Plan, Refusal>
    ensures { Answered bytes.now result }
{
    card.read(heap, bytes)?;
    planned(heap, card)
}
