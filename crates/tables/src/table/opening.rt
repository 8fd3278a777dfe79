// Opens entries as a table.
ghost use Rattle.std.specs.Prelude.{IfOk, IfErr, OnOk};
ghost use Rattle.tables.specs.Refusals.{Opens, WhyNotOpened};
ghost use Rattle.tables.specs.Tables.{TableOf};
ghost use Rattle.tasks.specs.View.{model_of};

use super::Table;
use crate::entries::StateEntries;
use crate::refusal::TableRefusal;
use crate::weighted::Weighted;
use std::alloc::Global;
use tasks::Task;

impl<'a> Table<'a> {
    // Opens the entries, exactly if the first of them, one for each projected state, are the mark or at most K and obey
    // both laws of an estimator in the projected task.
    pub fn open(
        heap: Global,
        task: &Task,
        pattern: &[u8],
        shares: &[u32],
        entries: &'a [u64],
    ) -> Result<Table<'a>, TableRefusal>
        ensures table { IfOk result (TableOf (model_of task.now) pattern.now shares.now entries.now) }
        ensures opens { OnOk result (Opens (model_of task.now) pattern.now shares.now entries.now) }
        ensures why { IfErr result (WhyNotOpened (model_of task.now) pattern.now shares.now entries.now) }
    {
        let graph = Weighted::new(heap, task, pattern, shares)?;
        if entries.len() < graph.states {
            return Err(TableRefusal::Room);
        }
        let lent = StateEntries {
            graph: &graph,
            entries,
        };
        if !lent.obeys() {
            return Err(TableRefusal::Entry);
        }
        let own = task.clone()?;
        let pattern = Vec::from_slice(heap, pattern)?;
        let shares = Vec::from_slice(heap, shares)?;
        let Weighted { projection, .. } = graph;
        Ok(Table {
            own,
            pattern,
            projection,
            shares,
            entries,
        })
    }
}
