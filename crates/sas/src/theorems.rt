// The theorems about tasks, each on the contract of a function that does nothing.
ghost use Rattle.std.specs.Prelude.{◌≡◌, Decides};
ghost use Rattle.sas.specs.Laws.{StepLaws};
ghost use Rattle.sas.specs.Model.{Model, Rules};
ghost use Rattle.sas.specs.Ranks.{OneToOne};
ghost use Rattle.sas.specs.Same.{Alike, Same};

use crate::{Fact, Precondition};

// States and the numbers below their count correspond one to one.
#[tactic(auto, using(crate::proofs::Unranks::one_to_one))]
pub fn ranks_are_one_to_one()
    ensures { (m : Model) → Rules m → OneToOne m }
{}

// A step leads from a state to the one state in which its effects stand and all else is kept.
#[tactic(auto, using(crate::proofs::Steps::step_laws))]
pub fn steps_are_lawful()
    ensures { (m : Model) → Rules m → StepLaws m }
{}

// Tasks that are equal as sets have the same states, ranks, steps and goal states.
pub fn equal_tasks_are_alike()
    ensures { (m n : Model) → Rules m → Rules n → Same m n → Alike m n }
{}

// `==` is true of equal preconditions and of equal facts, and of no others.
pub fn equality_is_exact()
    ensures preconditions { (x y : Precondition) → Decides (⟦<Precondition as PartialEq>⟧.eq x y) (x ≡ y) }
    ensures facts { (x y : Fact) → Decides (⟦<Fact as PartialEq>⟧.eq x y) (x ≡ y) }
{}
