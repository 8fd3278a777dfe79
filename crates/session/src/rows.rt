// Rows of costs and bars, one for each operator. Where there is no such row, a change changes nothing.
ghost use Rattle.std.specs.Prelude.{◌≡◌, map, IfOk, slice_get, slice_set};
ghost use Rattle.session.specs.Opening.{Payable};
ghost use Rattle.session.specs.Rows.{freed, row_at, table, with_bar, with_cost};

use sas::Row;
use std::alloc::{AllocError, Global};

#[derive(Drop)]
pub struct Rows {
    rows: Vec<Row>,
}

impl Rows {
    // A row with each cost, and no bar.
    pub(crate) fn new(heap: Global, costs: &[u32]) -> Result<Rows, AllocError>
        requires { Payable costs.now }
        ensures { IfOk result (λ t. table t ≡ map freed costs.now) }
    {
        // By cast: `open` tries the costs before it asks for memory, so none is cut.
        let rows = costs
            .iter()
            .map(|c| Row {
                cost: *c as u16,
                barred: false,
            })
            .collect(heap)?;
        Ok(Rows { rows })
    }

    pub(crate) fn get(&self, i: usize) -> Option<Row>
        ensures { result ≡ slice_get (table self.now) i }
    {
        self.rows.get(i).copied()
    }

    // The row of an operator; past the last one, a row of no cost and no bar.
    pub(crate) fn at(&self, i: usize) -> Row
        ensures { result ≡ row_at (table self.now) i }
    {
        // Field by field: a row is written so, and one that was just written is read late as a whole.
        match self.rows.get(i) {
            Some(row) => Row {
                cost: row.cost,
                barred: row.barred,
            },
            None => Row {
                cost: 0,
                barred: false,
            },
        }
    }

    // Each of the three changes lends one row within itself: a helper that lends it to a closure needs a longer clause.
    pub(crate) fn set_cost(&mut self, i: usize, cost: u16)
        ensures { table self.new ≡ with_cost (table self.old) i cost }
    {
        if let Some(row) = self.rows.get_mut(i) {
            row.cost = cost;
        }
    }

    pub(crate) fn set_bar(&mut self, i: usize, barred: bool)
        ensures { table self.new ≡ with_bar (table self.old) i barred }
    {
        if let Some(row) = self.rows.get_mut(i) {
            row.barred = barred;
        }
    }

    pub(crate) fn put(&mut self, i: usize, row: Row)
        ensures { table self.new ≡ slice_set (table self.old) i row }
    {
        if let Some(place) = self.rows.get_mut(i) {
            *place = row;
        }
    }
}
