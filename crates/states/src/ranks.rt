// States by rank, and the ranks of states.
ghost use Rattle.std.specs.Prelude.{◌≡◌, ℕ, ◌<◌, ◌≤◌, List, length, Decides, MatchOption, MatchResult};
ghost use Rattle.std.specs.Fn.{FnOnceReturnsAtMut};
ghost use Rattle.sas.specs.Ranks.{states};
ghost use Rattle.sas.specs.States.{State};
ghost use Rattle.states.specs.Ranked.{RankOf, StateOf, Unranked};
ghost use Rattle.states.specs.Refusals.{number_of};
ghost use Rattle.states.specs.declared.ranks.StateRefusal.TheVariants.{Memory, NoState};
ghost use Rattle.tasks.specs.View.{model_of};

use crate::counts::state_count;
use std::alloc::{AllocError, Global};
use tasks::Task;

// Why a rank or a state is not given.
#[derive(Clone, Copy)]
pub enum StateRefusal {
    NoState,
    NoRank,
    Memory,
}

impl StateRefusal {
    // The number of the refusal; want of memory has none.
    pub fn number(&self) -> Option<u8>
        ensures { result ≡ number_of self.now }
    {
        match self {
            StateRefusal::NoState | StateRefusal::NoRank => Some(10),
            StateRefusal::Memory => None,
        }
    }
}

impl From<AllocError> for StateRefusal {
    ghost from_gives = { λ _ r. r ≡ Memory };

    fn from(_e: AllocError) -> StateRefusal {
        Self::Memory
    }
}

// Whether each variable has one of its values.
pub(super) fn is_state(task: &Task, values: &[u8]) -> bool
    ensures { Decides result (State (model_of task.now).sizes values.now) }
{
    let sizes = task.sizes();
    values.len() == sizes.len() && values.iter().zip(sizes).all(|(value, size)| value < size)
}

// The number of a state.
pub fn rank(task: &Task, values: &[u8]) -> Result<usize, StateRefusal>
    ensures { MatchResult result (RankOf (model_of task.now) values.now) (λ e. (e ≡ NoState) × (State (model_of task.now).sizes values.now → ⊥)) }
{
    if !is_state(task, values) {
        return Err(StateRefusal::NoState);
    }
    let sizes = task.sizes();
    let mut sum: usize = 0;
    let mut coefficient: usize = 1;
    // A loop: a fold over the sum and the coefficient as a pair is no plainer.
    for (value, size) in values.iter().zip(sizes) {
        sum += coefficient * usize::from(*value);
        coefficient *= usize::from(*size);
    }
    Ok(sum)
}

// Writes the state of a rank.
fn unpack(task: &Task, rank: usize, values: &mut [u8])
    requires even { length values.old ≡ length (model_of task.now).sizes }
    requires below { rank < states (model_of task.now) }
    ensures { StateOf (model_of task.now) rank values.new }
{
    let sizes = task.sizes();
    let mut rest = rank;
    // By index: after a zip with `iter_mut` a proof knows the length of what was written, and no element.
    for (i, size) in sizes.iter().enumerate() {
        let size = usize::from(*size);
        // A remainder bounds it: `try_from` would need an error that cannot come.
        values[i] = (rest % size) as u8;
        rest /= size;
    }
}

// What `f` gives of the values of the state of a rank, if there is one.
pub(super) fn at_rank<T, F: FnOnce(&mut [u8]) -> T>(task: &Task, rank: usize, f: F) -> Option<T>
    requires { F.IsAlwaysCallable f }
    ensures { MatchOption result (states (model_of task.now) ≤ rank) (λ t. (rank < states (model_of task.now)) × (s : List ℕ) × (u : List ℕ) × StateOf (model_of task.now) rank s × FnOnceReturnsAtMut F.FnOnce f s t u) }
{
    if rank >= state_count(task) {
        return None;
    }
    // Fixed room: a step or a goal test by rank takes no memory.
    let mut room = [0u8; 16];
    let values = &mut room[..task.sizes().len()];
    unpack(task, rank, values);
    Some(f(values))
}

// The state of a rank.
pub fn state(heap: Global, task: &Task, rank: usize) -> Result<Vec<u8>, StateRefusal>
    ensures { MatchResult result (λ v. StateOf (model_of task.now) rank v.items) (Unranked (model_of task.now) rank) }
{
    let values = at_rank(task, rank, |values| Vec::from_slice(heap, values));
    Ok(values.ok_or(StateRefusal::NoRank)??)
}
