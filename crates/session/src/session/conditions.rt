// What calls ask for, each with the refusal where it is not so.
ghost use Rattle.std.specs.Prelude.{◌≡◌, cond, is_some, length, nat_lt};
ghost use Rattle.session.specs.Bench.{bench};
ghost use Rattle.session.specs.Rows.{row_at};
ghost use Rattle.session.specs.declared.session.refusal.Refusal.TheVariants.{Barred, CostTooHigh, NoSuch, StepUnderWay};

use super::Session;
use super::refusal::Refusal;
use sas::Row;

// A cost that fits a row.
pub(super) fn fitting(cost: u32) -> Result<u16, Refusal>
    ensures { result ≡ cond (nat_lt cost 65536) (Ok cost) (Err CostTooHigh) }
{
    u16::try_from(cost).map_err(|_| Refusal::CostTooHigh)
}

impl Session {
    // No step is under way.
    pub(super) fn idle(&self) -> Result<(), Refusal>
        ensures { result ≡ cond (is_some (bench self.now).step) (Err StepUnderWay) (Ok tt) }
    {
        if self.step.is_some() {
            return Err(Refusal::StepUnderWay);
        }
        Ok(())
    }

    // The row of an operator.
    pub(super) fn row(&self, operator: usize) -> Result<Row, Refusal>
        ensures { let rows = (bench self.now).rows in result ≡ cond (nat_lt operator (length rows)) (Ok (row_at rows operator)) (Err NoSuch) }
    {
        self.rows.get(operator).ok_or(Refusal::NoSuch)
    }

    // The row of an operator that has no bar.
    pub(super) fn unbarred(&self, operator: usize) -> Result<Row, Refusal>
        ensures { let rows = (bench self.now).rows in result ≡ cond (nat_lt operator (length rows)) (cond (row_at rows operator).barred (Err Barred) (Ok (row_at rows operator))) (Err NoSuch) }
    {
        let row = self.row(operator)?;
        if row.barred {
            return Err(Refusal::Barred);
        }
        Ok(row)
    }
}
