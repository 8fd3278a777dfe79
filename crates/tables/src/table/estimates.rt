// What a table tells of operators and states.
ghost use Rattle.tables.specs.Lawful.{table_lawful};
ghost use Rattle.tables.specs.Tables.{table_heights, table_shares, table_suits};

use super::Table;
use crate::entries::height_of;
use estimators::Estimator;
use states::{same, state_count};
use tasks::Task;

impl<'a> Estimator for Table<'a> {
    ghost suits = { table_suits };

    ghost shares = { table_shares };

    ghost heights = { table_heights };

    ghost lawful = { table_lawful };

    fn is_for(&self, task: &Task) -> bool {
        same(&self.own, task)
    }

    fn share(&self, operator: usize) -> u64 {
        if self.projection.remains(operator) {
            u64::from(self.shares[operator])
        } else {
            0
        }
    }

    fn height(&self, rank: usize) -> Option<u64> {
        if rank >= state_count(&self.own) {
            return None;
        }
        height_of(self.entries[self.projection.of(rank)])
    }
}
