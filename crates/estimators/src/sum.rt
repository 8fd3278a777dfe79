// The sum of two estimators, held at K.
ghost use Rattle.estimators.specs.Heights.{capped, capped_joins, merged};
ghost use Rattle.estimators.specs.Layers.{layered};

use crate::estimator::{Estimator, K};
use tasks::Task;

// For the tasks that both are for: the sum of the shares and of the heights, each held at K; dead in either is dead.
// A struct beside HigherOf, by a rule of the project: either layer is a struct of its own. What they share is `layered`.
#[derive(Drop)]
pub struct SumOf<X, Y> {
    pub first: X,
    pub second: Y,
}

impl<X: Estimator, Y: Estimator> Estimator for SumOf<X, Y> {
    ghost suits = { λ e m. X.Estimator.suits e.first m × Y.Estimator.suits e.second m };

    ghost shares = { λ e o. capped (X.Estimator.shares e.first o) (Y.Estimator.shares e.second o) };

    ghost heights = { λ e k. merged capped (X.Estimator.heights e.first k) (Y.Estimator.heights e.second k) };

    ghost lawful = { layered (λ e. e.first) (λ e. e.second) capped capped_joins X.Estimator.lawful Y.Estimator.lawful };

    fn is_for(&self, task: &Task) -> bool {
        self.first.is_for(task) && self.second.is_for(task)
    }

    fn share(&self, operator: usize) -> u64 {
        (self.first.share(operator) + self.second.share(operator)).min(K)
    }

    fn height(&self, rank: usize) -> Option<u64> {
        let heights = self.first.height(rank).zip(self.second.height(rank));
        heights.map(|(x, y)| (x + y).min(K))
    }
}
