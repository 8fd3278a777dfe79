// The higher of two estimators.
ghost use Rattle.std.specs.Prelude.{max};
ghost use Rattle.estimators.specs.Heights.{merged, max_joins};
ghost use Rattle.estimators.specs.Layers.{layered};

use crate::estimator::Estimator;
use tasks::Task;

// For the tasks that both are for: the greater share and the greater height; dead in either is dead.
// A struct beside SumOf, by a rule of the project: either layer is a struct of its own. What they share is `layered`.
#[derive(Drop)]
pub struct HigherOf<X, Y> {
    pub first: X,
    pub second: Y,
}

impl<X: Estimator, Y: Estimator> Estimator for HigherOf<X, Y> {
    ghost suits = { λ e m. X.Estimator.suits e.first m × Y.Estimator.suits e.second m };

    ghost shares = { λ e o. max (X.Estimator.shares e.first o) (Y.Estimator.shares e.second o) };

    ghost heights = { λ e k. merged max (X.Estimator.heights e.first k) (Y.Estimator.heights e.second k) };

    ghost lawful = { layered (λ e. e.first) (λ e. e.second) max max_joins X.Estimator.lawful Y.Estimator.lawful };

    fn is_for(&self, task: &Task) -> bool {
        self.first.is_for(task) && self.second.is_for(task)
    }

    fn share(&self, operator: usize) -> u64 {
        self.first.share(operator).max(self.second.share(operator))
    }

    fn height(&self, rank: usize) -> Option<u64> {
        let heights = self.first.height(rank).zip(self.second.height(rank));
        heights.map(|(x, y)| x.max(y))
    }
}
