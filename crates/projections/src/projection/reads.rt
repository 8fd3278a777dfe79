// Steps and goals of a projected task, by rank, and the way back over an operator.
ghost use Rattle.std.specs.Prelude.{◌≡◌, ℕ, ◌<◌, ◌≤◌, Decides, MatchOption};
ghost use Rattle.sas.specs.Ranks.{GoalRank, states};
ghost use Rattle.sas.specs.States as States;
ghost use Rattle.projections.specs.Origins.{Origin, free, offset, ways};
ghost use Rattle.projections.specs.Parts.{action, folded};
ghost use Rattle.projections.specs.Projection.{Edge, Remains};
ghost use Rattle.projections.specs.Shapes.{Shaped};
ghost use Rattle.projections.specs.View.{places_of, view_of};

use super::Projection;
use crate::moves::Move;

impl Projection {
    // The number of projected states.
    pub fn states(&self) -> usize
        ensures count { result ≡ states (view_of self.now) }
        ensures few { result ≤ 1048576 }
        ensures shaped { Shaped (view_of self.now) }
    {
        self.axes.product()
    }

    // Whether an operator has an effect in the pattern.
    pub fn remains(&self, operator: usize) -> bool
        ensures { Decides result (Remains (view_of self.now) operator) }
    {
        self.moves
            .get(operator)
            .is_some_and(|one| !one.effects.is_empty())
    }

    // Whether a number is the rank of a projected goal state.
    pub fn is_goal(&self, rank: usize) -> bool
        ensures { Decides result (GoalRank (view_of self.now) rank) }
    {
        rank < self.states() && self.axes.all_stand(&self.goal, rank)
    }

    // What is left of an operator that remains, where a number is a rank.
    fn remaining(&self, operator: usize, rank: usize) -> Option<&Move>
        ensures { MatchOption result (Remains (view_of self.now) operator → rank < states (view_of self.now) → ⊥) (λ x. (States.operator (view_of self.now) operator ≡ action x.now) × Remains (view_of self.now) operator × (rank < states (view_of self.now))) }
    {
        let one = self.moves.get(operator)?;
        (rank < self.states() && !one.effects.is_empty()).then_some(one)
    }

    // The rank to which an operator leads.
    pub fn successor(&self, operator: usize, rank: usize) -> Option<usize>
        ensures { MatchOption result ((l : ℕ) → Edge (view_of self.now) operator rank l → ⊥) (λ l. Edge (view_of self.now) operator rank l × (l < states (view_of self.now))) }
    {
        let one = self.remaining(operator, rank)?;
        if !self.axes.all_stand(&one.asked, rank) {
            return None;
        }
        Some(self.axes.written(&one.effects, rank))
    }

    // Where an operator that leads to a rank may have come from: the rank in which its free variables are 0.
    pub fn origin(&self, operator: usize, rank: usize) -> Option<usize>
        ensures { MatchOption result ((k : ℕ) → Edge (view_of self.now) operator k rank → ⊥) (Origin (view_of self.now) operator rank) }
    {
        let one = self.remaining(operator, rank)?;
        let asked = self.axes.written(&one.asked, rank);
        let leads_back = self.axes.written(&one.effects, asked) == rank;
        if !leads_back {
            return None;
        }
        Some(self.axes.written(&one.free, asked))
    }

    // In how many ways the free variables of an operator can be filled in.
    pub fn ways(&self, operator: usize) -> usize
        ensures { result ≡ ways (view_of self.now).sizes (free (view_of self.now) operator) }
    {
        self.moves
            .get(operator)
            .map_or(1, |one| self.axes.ways_of(&one.free))
    }

    // What the n-th of these ways adds to the rank that `origin` gives.
    pub fn offset(&self, operator: usize, n: usize) -> usize
        ensures { result ≡ offset (view_of self.now).sizes (free (view_of self.now) operator) n }
    {
        self.moves
            .get(operator)
            .map_or(0, |one| self.axes.offset_of(&one.free, n))
    }

    // The rank of what is left of the state of a rank of the whole task.
    #[tactic(auto, unfolding(sas::specs::Ranks::states))]
    pub fn of(&self, rank: usize) -> usize
        ensures value { result ≡ folded (places_of self.now) (view_of self.now).sizes rank }
        ensures low { result < states (view_of self.now) }
    {
        self.axes.folded_rank(rank)
    }
}
