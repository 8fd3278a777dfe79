// Looks at the steps that lead to a rank, from the operators back.
ghost use Rattle.std.specs.Prelude.{◌≡◌, ◌+◌, ◌<◌, ◌≤◌, length};
ghost use Rattle.projections.specs.Origins.{Origin};
ghost use Rattle.tables.specs.Backwards.{Left, Offered, Unset};
ghost use Rattle.tables.specs.Lists.{Looked, Ready};
ghost use Rattle.tables.specs.Weighted.{task_of};

use crate::entries::{MARK, StateEntries};
use keys::Distance;
use lists::WaitingList;

impl StateEntries<'_> {
    // Offers a cost to a rank, unless it has its entry.
    fn offer<W: WaitingList<Key = Distance>>(&self, list: &mut W, rank: usize, cost: u64)
        requires ordered { W.WaitingList.ordered list.old }
        requires below { rank < self.now.graph.now.states }
        requires room { self.now.graph.now.states ≤ W.WaitingList.places list.old }
        requires unset { Unset self.now.entries.now self.now.graph.now.states (W.WaitingList.waiting list.old) }
        ensures ordered { W.WaitingList.ordered list.new }
        ensures places { W.WaitingList.places list.new ≡ W.WaitingList.places list.old }
        ensures offered { Offered self.now.entries.now self.now.graph.now.states (W.WaitingList.waiting list.old) rank cost (W.WaitingList.waiting list.new) }
    {
        if self.entries[rank] == MARK {
            let _ = list.put(rank, Distance(cost));
        }
    }

    // Offers a cost to each rank from which an operator leads to `t`: its free variables range over all their values.
    fn offer_all<W: WaitingList<Key = Distance>>(
        &self,
        list: &mut W,
        t: usize,
        g: u64,
        operator: usize,
        origin: usize,
    )
        requires ready { Ready W.WaitingList.places W.WaitingList.waiting W.WaitingList.ordered self.now.graph.now self.now.entries.now t g (Left t operator) list.old }
        requires origin { Origin (task_of self.now.graph.now) operator t origin }
        ensures { Looked W.WaitingList.places W.WaitingList.waiting W.WaitingList.ordered self.now.graph.now self.now.entries.now t g (Left t (operator + 1)) list.old list.new }
    {
        let cost = g + self.graph.share(operator);
        for n in 0..self.graph.projection.ways(operator) {
            let from = origin + self.graph.projection.offset(operator, n);
            self.offer(list, from, cost);
        }
    }

    // Looks at the steps of one operator.
    fn look_at<W: WaitingList<Key = Distance>>(
        &self,
        list: &mut W,
        t: usize,
        g: u64,
        operator: usize,
    )
        requires ready { Ready W.WaitingList.places W.WaitingList.waiting W.WaitingList.ordered self.now.graph.now self.now.entries.now t g (Left t operator) list.old }
        ensures { Looked W.WaitingList.places W.WaitingList.waiting W.WaitingList.ordered self.now.graph.now self.now.entries.now t g (Left t (operator + 1)) list.old list.new }
    {
        if let Some(origin) = self.graph.projection.origin(operator, t) {
            self.offer_all(list, t, g, operator, origin);
        }
    }

    // Looks at all steps that lead to `t`, which was taken at the distance `g`.
    pub(crate) fn look_at_all<W: WaitingList<Key = Distance>>(&self, list: &mut W, t: usize, g: u64)
        requires { Ready W.WaitingList.places W.WaitingList.waiting W.WaitingList.ordered self.now.graph.now self.now.entries.now t g (Left t 0) list.old }
        ensures { Looked W.WaitingList.places W.WaitingList.waiting W.WaitingList.ordered self.now.graph.now self.now.entries.now t g (Left t (length self.now.graph.now.shares.now)) list.old list.new }
    {
        for operator in 0..self.graph.shares.len() {
            self.look_at(list, t, g, operator);
        }
    }
}
