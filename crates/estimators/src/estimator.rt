// What bounds the cost of every run to a goal from below.
ghost use Rattle.std.specs.Prelude.{◌≡◌, ℕ, Decides, Option};
ghost use Rattle.estimators.specs.Laws.{EstimatorLaws};
ghost use Rattle.sas.specs.Model.{Model};
ghost use Rattle.tasks.specs.View.{model_of};

use tasks::Task;

// The most that a share or a height may be.
pub const K: u64 = 1 << 40;

pub trait Estimator {
    // The tasks that it is for.
    ghost suits: { Self → Model → Type 0 };

    // The share of an operator, by its number.
    ghost shares: { Self → ℕ → ℕ };

    // The height of a state, by its rank; none where it is dead.
    ghost heights: { Self → ℕ → Option ℕ };

    ghost lawful: { EstimatorLaws suits shares heights };

    fn is_for(&self, task: &Task) -> bool
        ensures { Decides result (suits self.now (model_of task.now)) };

    fn share(&self, operator: usize) -> u64
        ensures { result ≡ shares self.now operator };

    // How far a state is from the goal: each run there costs at least so much. None where the state is dead, and no run
    // leads there.
    fn height(&self, rank: usize) -> Option<u64>
        ensures { result ≡ heights self.now rank };
}
