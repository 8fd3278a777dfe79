// A plain search over ranks: labels are bettered until none changes.
use states::{is_goal_rank, state_count, successor};
use std::alloc::{AllocError, Global};
use tasks::Task;

// The cheapest way to a state that is known: none, the start's, which has no step and costs nothing, or one by its last step:
// the operator, and the state that it leads from, by its rank: the number of a state, and no place of an arena.
#[derive(Clone, Copy)]
enum Label {
    Unreached,
    Start,
    Reached {
        cost: u64,
        operator: usize,
        from: usize,
    },
}

impl Label {
    // What the way costs, where there is one.
    fn cost(self) -> Option<u64> {
        match self {
            Label::Unreached => None,
            Label::Start => Some(0),
            Label::Reached { cost, .. } => Some(cost),
        }
    }
}

// A task with the costs of its operators, and the label of each state.
#[derive(Drop)]
struct Search<'a> {
    task: &'a Task,
    costs: &'a [u16],
    labels: Vec<Label>,
}

impl<'a> Search<'a> {
    // Only the start is reached.
    fn new(
        heap: Global,
        task: &'a Task,
        costs: &'a [u16],
        start: usize,
    ) -> Result<Search<'a>, AllocError> {
        let mut labels = vec![in heap; Label::Unreached; state_count(task)]?;
        if let Some(label) = labels.get_mut(start) {
            *label = Label::Start;
        }
        Ok(Search {
            task,
            costs,
            labels,
        })
    }

    // Notes a way to `rank`, at this cost, that is cheaper than the one known.
    fn better(&mut self, rank: usize, cost: u64, new: Label) -> bool {
        let Some(known) = self.labels.get_mut(rank) else {
            return false;
        };
        if known.cost().is_some_and(|least| least <= cost) {
            return false;
        }
        *known = new;
        true
    }

    // Follows every operator from `from`.
    fn spread(&mut self, from: usize) -> bool {
        let Some(so_far) = self.labels.get(from).and_then(|label| label.cost()) else {
            return false;
        };
        let mut changed = false;
        for (operator, cost) in self.costs.iter().enumerate() {
            if let Some(next) = successor(self.task, operator, from) {
                let cost = so_far.saturating_add(u64::from(*cost));
                let label = Label::Reached {
                    cost,
                    operator,
                    from,
                };
                changed |= self.better(next, cost, label);
            }
        }
        changed
    }

    fn spread_all(&mut self) -> bool {
        let mut changed = false;
        // By rank: a spread changes the labels of other ranks, so that no iterator may hold them.
        for rank in 0..self.labels.len() {
            changed |= self.spread(rank);
        }
        changed
    }

    // A cheapest way has fewer steps than there are states, so that many rounds do.
    fn settle(&mut self) {
        for _ in 0..self.labels.len() {
            if !self.spread_all() {
                return;
            }
        }
    }

    // The goal state that is reached at least cost.
    fn nearest_goal(&self) -> Option<usize> {
        self.labels
            .iter()
            .enumerate()
            .filter_map(|(rank, label)| label.cost().map(|cost| (rank, cost)))
            .filter(|(rank, _)| is_goal_rank(self.task, *rank))
            .min_by_key(|(_, cost)| *cost)
            .map(|(rank, _)| rank)
    }

    // The steps from the start to `goal`, gone back label by label.
    fn trace(&self, heap: Global, goal: usize) -> Result<Vec<usize>, AllocError> {
        let mut steps = Vec::new(heap);
        let mut rank = goal;
        // By count: a way has fewer steps than there are states.
        for _ in 0..self.labels.len() {
            let Some(Label::Reached { operator, from, .. }) = self.labels.get(rank).copied() else {
                break;
            };
            steps.push(operator)?;
            rank = from;
        }
        steps.reverse();
        Ok(steps)
    }
}

// A way from `start` to a goal state; the caller checks that it is one.
pub(crate) fn find(
    heap: Global,
    task: &Task,
    costs: &[u16],
    start: usize,
) -> Result<Option<Vec<usize>>, AllocError> {
    let mut search = Search::new(heap, task, costs, start)?;
    search.settle();
    search
        .nearest_goal()
        .map(|goal| search.trace(heap, goal))
        .transpose()
}
