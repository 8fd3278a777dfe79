// Projects a task onto a pattern.
ghost use Rattle.std.specs.Prelude.{◌≡◌, ◌==◌, map, IfOk, OnOk};
ghost use Rattle.std.specs.List.{list_any};
ghost use Rattle.tasks.specs.Parts as Tasks;
ghost use Rattle.tasks.specs.View.{model_of};
ghost use Rattle.projections.specs.Asked.{as_fact, as_precondition, at_zero};
ghost use Rattle.projections.specs.Laws.{ProjectionLaws};
ghost use Rattle.projections.specs.Origins.{unasked};
ghost use Rattle.projections.specs.Parts.{action, scales};
ghost use Rattle.projections.specs.Projection.{among, kept_facts, only, projected, projected_action};
ghost use Rattle.projections.specs.View.{places_of, view_of};

use super::Projection;
use crate::axes::Axes;
use crate::moves::Move;
use crate::pattern::{has, new_number};
use sas::{Fact, Precondition};
use std::alloc::{AllocError, Global};
use tasks::{Operator, Task};

// The facts about the pattern's variables, numbered anew.
fn kept_facts(heap: Global, facts: &[Fact], pattern: &[u8]) -> Result<Vec<Fact>, AllocError>
    ensures { IfOk result (λ v. v.items ≡ kept_facts (among pattern.now) facts.now) }
{
    facts
        .iter()
        .filter(|f| has(pattern, usize::from(f.variable)))
        .map(|f| Fact {
            variable: new_number(pattern, f.variable),
            value: f.value,
        })
        .collect(heap)
}

// Preconditions as facts: `sas` has a type for each, and what is asked is written into ranks as facts.
fn facts_of(heap: Global, preconditions: &[Precondition]) -> Result<Vec<Fact>, AllocError>
    ensures { IfOk result (λ v. v.items ≡ map as_fact preconditions.now) }
{
    preconditions
        .iter()
        .map(|p| Fact {
            variable: p.variable,
            value: p.value,
        })
        .collect(heap)
}

// Whether a fact speaks of a variable.
fn speaks(facts: &[Fact], variable: u8) -> bool
    ensures { result ≡ list_any (λ f. f.variable == variable) facts.now }
{
    facts.iter().any(|f| f.variable == variable)
}

// The variables that are set without being asked for, at 0.
fn free_of(heap: Global, asked: &[Fact], effects: &[Fact]) -> Result<Vec<Fact>, AllocError>
    ensures { IfOk result (λ v. v.items ≡ map at_zero (unasked (map as_precondition asked.now) effects.now)) }
{
    effects
        .iter()
        .filter(|f| !speaks(asked, f.variable))
        .map(|f| Fact {
            variable: f.variable,
            value: 0,
        })
        .collect(heap)
}

// What is left of an operator.
fn moved(heap: Global, operator: &Operator, pattern: &[u8]) -> Result<Move, AllocError>
    ensures { IfOk result (λ a. action a ≡ projected_action (among pattern.now) (Tasks.action operator.now)) }
{
    let facts = facts_of(heap, operator.preconditions())?;
    let asked = kept_facts(heap, &facts, pattern)?;
    let effects = kept_facts(heap, operator.effects(), pattern)?;
    let free = free_of(heap, &asked, &effects)?;
    Ok(Move {
        asked,
        effects,
        free,
    })
}

// What is left of each operator.
#[tactic(auto, using(crate::proofs::Making::moves_collected))]
fn all_moved(heap: Global, operators: &[Operator], pattern: &[u8]) -> Result<Vec<Move>, AllocError>
    ensures { IfOk result (λ v. map action v.items ≡ map (projected_action (among pattern.now)) (map Tasks.action operators.now)) }
{
    let projected = operators.iter().map(|o| -> Result<Move, AllocError> {
        moved(heap, o, pattern)
    });
    projected.try_collect(heap)
}

impl Projection {
    // The task without the variables outside the pattern. What is left of a state, a step and a goal state of the whole
    // task are one of the projected task; a step of an operator that is dropped changes nothing there.
    pub fn new(heap: Global, task: &Task, pattern: &[u8]) -> Result<Projection, AllocError>
        ensures view { IfOk result (λ p. view_of p ≡ projected (among pattern.now) (model_of task.now)) }
        ensures lawful { OnOk result (ProjectionLaws (among pattern.now) (model_of task.now)) }
        ensures places { IfOk result (λ p. places_of p ≡ only (among pattern.now) (scales (model_of task.now).sizes)) }
    {
        let axes = Axes::kept(heap, task.sizes(), pattern)?;
        let goal = kept_facts(heap, task.goal(), pattern)?;
        let moves = all_moved(heap, task.operators(), pattern)?;
        Ok(Projection { axes, goal, moves })
    }
}
