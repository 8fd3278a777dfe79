// Tests whether entries obey the laws of an estimator in a projected task.
ghost use Rattle.std.specs.Prelude.{ℕ, ◌<◌, length, Decides};
ghost use Rattle.estimators.specs.Heights.{Falls, Held};
ghost use Rattle.projections.specs.Projection.{Edge};
ghost use Rattle.tables.specs.Entries.{Obeys, ObeysAt, entry, height_at};
ghost use Rattle.tables.specs.Weighted.{cost_of, task_of};

use crate::entries::{StateEntries, height_of};
use estimators::K;

// Whether an entry is the mark or at most K.
fn is_held(entry: u64) -> bool
    ensures { Decides result (Held (height_at entry)) }
{
    height_of(entry).is_none_or(|h| h <= K)
}

// Whether the height falls by no more than the share from one to another.
fn falls(share: u64, from: Option<u64>, to: Option<u64>) -> bool
    ensures { Decides result (Falls share from to) }
{
    to.is_none_or(|y| from.is_some_and(|x| x.saturating_sub(y) <= share))
}

impl StateEntries<'_> {
    // Whether the step of one operator from a rank, if there is one, obeys the law.
    fn obeys_operator(&self, rank: usize, operator: usize) -> bool
        requires { rank < self.now.graph.now.states }
        ensures { Decides result ((l : ℕ) → Edge (task_of self.now.graph.now) operator rank l → Falls (cost_of self.now.graph.now operator) (height_at (entry self.now.entries.now rank)) (height_at (entry self.now.entries.now l))) }
    {
        // By cases: the step is shown to be the only one where it is known.
        match self.graph.projection.successor(operator, rank) {
            Some(to) => falls(
                self.graph.share(operator),
                height_of(self.entries[rank]),
                height_of(self.entries[to]),
            ),
            None => true,
        }
    }

    // Whether all steps from a rank obey the law.
    fn steps_obey(&self, rank: usize) -> bool
        requires { rank < self.now.graph.now.states }
        ensures { Decides result ((o : ℕ) → o < length self.now.graph.now.shares.now → (l : ℕ) → Edge (task_of self.now.graph.now) o rank l → Falls (cost_of self.now.graph.now o) (height_at (entry self.now.entries.now rank)) (height_at (entry self.now.entries.now l))) }
    {
        (0..self.graph.shares.len()).all(|operator| self.obeys_operator(rank, operator))
    }

    // Whether a rank obeys the laws.
    #[tactic(auto, using(projections::proofs::Edges::edge_number))]
    fn obeys_at(&self, rank: usize) -> bool
        requires { rank < self.now.graph.now.states }
        ensures { Decides result (ObeysAt (task_of self.now.graph.now) (cost_of self.now.graph.now) self.now.entries.now rank) }
    {
        let entry = self.entries[rank];
        is_held(entry)
            && (entry == 0 || !self.graph.projection.is_goal(rank))
            && self.steps_obey(rank)
    }

    // Whether all ranks obey the laws.
    pub(crate) fn obeys(&self) -> bool
        ensures { Decides result (Obeys (task_of self.now.graph.now) (cost_of self.now.graph.now) self.now.entries.now) }
    {
        (0..self.graph.states).all(|rank| self.obeys_at(rank))
    }
}
