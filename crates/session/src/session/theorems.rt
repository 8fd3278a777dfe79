// What calls lead to is one: each theorem is on the contract of a function that does nothing.
ghost use Rattle.std.specs.Prelude.{◌≡◌, List, Result};
ghost use Rattle.session.specs.Bench.{Bench};
ghost use Rattle.session.specs.Calls.{Leads, Replayed};
ghost use Rattle.session.specs.declared.session.calls.Call.{Call};
ghost use Rattle.session.specs.declared.session.refusal.Refusal.{Refusal};

// Two answers to the same call are equal.
#[tactic(auto, using(crate::proofs::Agree::leads_agree))]
pub fn answers_agree()
    ensures { (call : Call) (b : Bench) (r s : Result Bench Refusal) → Leads call b r → Leads call b s → r ≡ s }
{}

// Two outcomes of the same calls are equal.
#[tactic(auto, using(crate::proofs::Agree::replays_agree))]
pub fn replays_agree()
    ensures { (calls : List Call) (b c d : Bench) → Replayed b calls c → Replayed b calls d → c ≡ d }
{}
