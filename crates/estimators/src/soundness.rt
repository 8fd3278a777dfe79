// Whether a pile, any estimator, is sound for a task's operators as they cost and are barred.
ghost use Rattle.std.specs.Prelude.{◌≡◌, ℕ, true, Decides, MatchOption};
ghost use Rattle.estimators.specs.Bounds.{Bounds};
ghost use Rattle.estimators.specs.Soundness.{Fair, FirstOvercharged, Sound, Unbarred, price};
ghost use Rattle.tasks.specs.View.{model_of};

use crate::estimator::Estimator;
use sas::Row;
use tasks::Task;

// The first unbarred operator whose share exceeds its cost. One past the end of the rows counts as barred.
pub fn first_overcharged<E: Estimator>(pile: &E, rows: &[Row]) -> Option<usize>
    ensures { MatchOption result ((o : ℕ) → Fair rows.now (E.Estimator.shares pile.now) o) (FirstOvercharged rows.now (E.Estimator.shares pile.now)) }
{
    let mut numbered = rows.iter().enumerate();
    numbered.position(|(operator, row)| !row.barred && pile.share(operator) > u64::from(row.cost))
}

// Whether a pile is for a task and no unbarred operator's share exceeds its cost; bars as above. If so, no run by
// unbarred operators to a goal state costs less than the height of the state that it starts from, and from a dead state
// there is none.
pub fn is_sound<E: Estimator>(pile: &E, task: &Task, rows: &[Row]) -> bool
    ensures decides { Decides result (Sound (model_of task.now) rows.now (E.Estimator.suits pile.now) (E.Estimator.shares pile.now)) }
    ensures bounds { result ≡ true → Bounds (model_of task.now) (Unbarred rows.now) (price rows.now) (E.Estimator.heights pile.now) }
{
    pile.is_for(task) && first_overcharged(pile, rows).is_none()
}
