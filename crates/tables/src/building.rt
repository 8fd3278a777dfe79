// Builds a table by Dijkstra's algorithm, backwards from the goal states.
ghost use Rattle.std.specs.Prelude.{◌≡◌, ◌≤◌, length, IfErr, OnErr, OnOk};
ghost use Rattle.lists.specs.Waits.{Cleared, Fresh};
ghost use Rattle.projections.specs.Projection.{among, projected};
ghost use Rattle.sas.specs.Ranks as Ranks;
ghost use Rattle.tables.specs.Built.{Built};
ghost use Rattle.tables.specs.Costs.{share};
ghost use Rattle.tables.specs.Going.{Seeded};
ghost use Rattle.tables.specs.Lists.{Goes};
ghost use Rattle.tables.specs.Refusals.{Opens, WhyNotBuilt};
ghost use Rattle.tables.specs.Weighted.{cost_of, task_of};
ghost use Rattle.tasks.specs.View.{model_of};

use crate::entries::{MARK, StateEntries};
use crate::refusal::TableRefusal;
use crate::weighted::Weighted;
use keys::Distance;
use lists::WaitingList;
use std::alloc::Global;
use tasks::Task;

// Puts the goal states at the distance 0 into a fresh list.
fn seed<W: WaitingList<Key = Distance>>(list: &mut W, graph: &Weighted)
    requires fresh { Fresh W.WaitingList.places W.WaitingList.waiting W.WaitingList.ordered (W.WaitingList.places list.old) list.old }
    requires room { graph.now.states ≤ W.WaitingList.places list.old }
    ensures ordered { W.WaitingList.ordered list.new }
    ensures places { W.WaitingList.places list.new ≡ W.WaitingList.places list.old }
    ensures seeded { Seeded (task_of graph.now) graph.now.states (W.WaitingList.waiting list.new) }
{
    for rank in 0..graph.states {
        if graph.projection.is_goal(rank) {
            let _ = list.put(rank, Distance(0));
        }
    }
}

// Takes ranks by least distance, which is then their entry, until none waits.
fn run<W: WaitingList<Key = Distance>>(list: &mut W, entries: &mut [u64], graph: &Weighted)
    requires long { graph.now.states ≤ length entries.old }
    requires goes { Goes W.WaitingList.places W.WaitingList.waiting W.WaitingList.ordered graph.now entries.old list.old }
    ensures emptied { Cleared W.WaitingList.places W.WaitingList.waiting W.WaitingList.ordered list.old list.new }
    ensures built { Built (task_of graph.now) (cost_of graph.now) entries.old entries.new }
{
    while let Some((t, d)) = list.take() {
        entries[t] = d.0;
        let lent = StateEntries {
            graph: &*graph,
            entries: &*entries,
        };
        lent.look_at_all(list, t, d.0);
    }
}

// Fills the table, whatever list and entries held.
fn fill<W: WaitingList<Key = Distance>>(list: &mut W, entries: &mut [u64], graph: &Weighted)
    requires long { graph.now.states ≤ length entries.old }
    requires room { graph.now.states ≤ W.WaitingList.places list.old }
    ensures emptied { Cleared W.WaitingList.places W.WaitingList.waiting W.WaitingList.ordered list.old list.new }
    ensures built { Built (task_of graph.now) (cost_of graph.now) entries.old entries.new }
{
    entries[..graph.states].fill(MARK);
    list.clear();
    seed(list, graph);
    run(list, entries, graph);
}

// Builds the table of a pattern: at the rank of each projected state the least cost, at these shares, of a run of the
// projected task to a projected goal state, or the mark. Task, pattern and shares are given apart, as a caller has them.
pub fn build<W: WaitingList<Key = Distance>>(
    heap: Global,
    task: &Task,
    pattern: &[u8],
    shares: &[u32],
    list: &mut W,
    entries: &mut [u64],
) -> Result<(), TableRefusal>
    ensures built { OnOk result (Built (projected (among pattern.now) (model_of task.now)) (share shares.now) entries.old entries.new) }
    ensures opens { OnOk result (Opens (model_of task.now) pattern.now shares.now entries.new) }
    ensures emptied { OnOk result (Cleared W.WaitingList.places W.WaitingList.waiting W.WaitingList.ordered list.old list.new) }
    ensures room { OnOk result (Ranks.states (projected (among pattern.now) (model_of task.now)) ≤ W.WaitingList.places list.old) }
    ensures why { IfErr result (WhyNotBuilt (model_of task.now) pattern.now shares.now (length entries.old) (W.WaitingList.places list.old)) }
    ensures untouched { OnErr result ((list.new ≡ list.old) × (entries.new ≡ entries.old)) }
{
    let graph = Weighted::new(heap, task, pattern, shares)?;
    if entries.len() < graph.states || list.capacity() < graph.states {
        return Err(TableRefusal::Room);
    }
    fill(list, entries, &graph);
    Ok(())
}
