// Ranks as numbers with a digit for each variable: reading digits and writing them.
ghost use Rattle.std.specs.Prelude.{◌≡◌, ℕ, ◌<◌, ◌≤◌, List, map, length, Decides};
ghost use Rattle.std.specs.List.{All, AllByRecursion};
ghost use Rattle.sas.specs.Model.{Valued, product};
ghost use Rattle.sas.specs.Ranks as Ranks;
ghost use Rattle.sas.specs.States.{State, outcome};
ghost use Rattle.projections.specs.Origins.{offset, ways};
ghost use Rattle.projections.specs.Parts.{axis_places, axis_sizes, digit, folded};

use super::Axes;
use sas::Fact;

impl Axes {
    // How many states the variables have.
    pub(crate) fn product(&self) -> usize
        ensures { result ≡ product (axis_sizes self.now.list.items) }
    {
        self.list.iter().map(|a| usize::from(a.size)).product()
    }

    // The value of a variable in the state of a rank.
    #[tactic(auto, using(crate::proofs::Digits::value_is))]
    fn value_of(&self, variable: usize, rank: usize) -> usize
        requires inside { variable < length self.now.list.items }
        ensures { result ≡ digit (axis_sizes self.now.list.items) variable rank }
    {
        let axis = &self.list[variable];
        rank / axis.coefficient % usize::from(axis.size)
    }

    // Whether facts stand in the state of a rank.
    pub(crate) fn all_stand(&self, facts: &[Fact], rank: usize) -> bool
        requires inside { All (λ f. f.variable < length self.now.list.items) facts.now }
        ensures { Decides result (AllByRecursion (λ f. digit (axis_sizes self.now.list.items) f.variable rank ≡ f.value) facts.now) }
    {
        facts.iter().all(|f| self.value_of(usize::from(f.variable), rank) == usize::from(f.value))
    }

    // The rank of a state with facts put in, one by one.
    pub(crate) fn written(&self, facts: &[Fact], rank: usize) -> usize
        requires valued { All (λ f. Valued (axis_sizes self.now.list.items) f.variable f.value) facts.now }
        requires below { rank < product (axis_sizes self.now.list.items) }
        ensures value { (s : List ℕ) → State (axis_sizes self.now.list.items) s → Ranks.rank (axis_sizes self.now.list.items) s ≡ rank → result ≡ Ranks.rank (axis_sizes self.now.list.items) (outcome facts.now s) }
        ensures low { result < product (axis_sizes self.now.list.items) }
    {
        let mut now_at = rank;
        for f in facts {
            let variable = usize::from(f.variable);
            let scale = self.list[variable].coefficient;
            now_at -= self.value_of(variable, now_at) * scale;
            now_at += usize::from(f.value) * scale;
        }
        now_at
    }

    // How many values some variables have together; they stand in facts, as `free` of a `Move` keeps them for `written`.
    pub(crate) fn ways_of(&self, variables: &[Fact]) -> usize
        requires inside { All (λ f. f.variable < length self.now.list.items) variables.now }
        requires few { length variables.now ≤ 8 }
        ensures { result ≡ ways (axis_sizes self.now.list.items) (map (λ f. f.variable) variables.now) }
    {
        // By a loop: of a chain that reads by index, nothing is known of an item past the end.
        let mut all: usize = 1;
        for f in variables {
            all *= usize::from(self.list[usize::from(f.variable)].size);
        }
        all
    }

    // What the n-th choice of values for some variables adds to a rank in which they are 0.
    pub(crate) fn offset_of(&self, variables: &[Fact], n: usize) -> usize
        requires inside { All (λ f. f.variable < length self.now.list.items) variables.now }
        requires few { length variables.now ≤ 8 }
        ensures { result ≡ offset (axis_sizes self.now.list.items) (map (λ f. f.variable) variables.now) n }
    {
        let mut sum: usize = 0;
        let mut rest = n;
        for f in variables {
            let axis = &self.list[usize::from(f.variable)];
            sum += rest % usize::from(axis.size) * axis.coefficient;
            rest /= usize::from(axis.size);
        }
        sum
    }

    // The rank of what is left of the state of a rank of the whole task.
    pub(crate) fn folded_rank(&self, rank: usize) -> usize
        ensures value { result ≡ folded (axis_places self.now.list.items) (axis_sizes self.now.list.items) rank }
        ensures low { result < product (axis_sizes self.now.list.items) }
    {
        self.list
            .iter()
            .map(|a| rank / a.whole_coefficient % usize::from(a.size) * a.coefficient)
            .sum()
    }
}
