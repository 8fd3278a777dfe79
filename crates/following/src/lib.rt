// What stands above a session: steps that are begun and done, and trials that leave the session as it was.
#![tactic(auto)]

ghost use Rattle.std.specs.Prelude.{◌≡◌, [], ◌∷◌, Err, MatchResult};
ghost use Rattle.session.specs.Bench.{bench};
ghost use Rattle.session.specs.Begins.{Begins};
ghost use Rattle.session.specs.Calls.{Replayed};
ghost use Rattle.session.specs.declared.session.calls.Call.TheVariants.{Begin, Done};

use session::{Refusal, Session};

// Begins and ends a step, or leaves the session as it was.
pub fn step(session: &mut Session, operator: usize) -> Result<(), Refusal>
    ensures { MatchResult result (λ _. Replayed (bench session.old) (Begin operator ∷ Done operator ∷ []) (bench session.new)) (λ e. Begins operator (bench session.old) (Err e) × (bench session.new ≡ bench session.old)) }
{
    let ticket = session.begin(operator)?;
    match session.done(ticket) {
        Ok(()) => Ok(()),
        Err(_back) => unreachable(),
    }
}

// Makes a trial of one operator's row and then one of another's, the second only where `both`: each row is back
// when its trial ends, on the early return too.
pub fn try_rows(session: &mut Session, a: usize, b: usize, cost: u32, both: bool)
    ensures { bench session.new ≡ bench session.old }
{
    {
        let _trial = session.trial(a, cost, false);
        if !both {
            return;
        }
    }
    let _trial = session.trial(b, cost, true);
}
