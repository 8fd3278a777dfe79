// A trial changes one row for as long as it lasts; when it ends its drop puts the row back.
ghost use Rattle.std.specs.Prelude.{◌≡◌};
ghost use Rattle.std.specs.Result.{result_map_both};
ghost use Rattle.session.specs.Bench.{bench};
ghost use Rattle.session.specs.Trials.{ended, trying, untried};

use super::Session;
use super::conditions::fitting;
use super::refusal::Refusal;
use sas::Row;

// A refused trial changes no row, and puts back what stands there.
pub struct Trial<'a> {
    session: &'a mut Session,
    operator: usize,
    old: Row,
    verdict: Result<(), Refusal>,
}

impl Drop for Trial<'_> {
    fn drop(self)
        ensures { bench self.exit.0.now ≡ ended self.entry }
    {
        let Trial {
            session,
            operator,
            old,
            verdict: _,
        } = self;
        session.rows.put(operator, old);
    }
}

impl Trial<'_> {
    // Whether the trial is taken, or why it was refused.
    pub(super) fn verdict(&self) -> Result<(), Refusal>
        ensures { result ≡ self.entry.now.verdict }
    {
        self.verdict
    }
}

impl Session {
    // The row that a trial puts in, where it is taken.
    fn tried(&self, operator: usize, cost: u32, barred: bool) -> Result<Row, Refusal>
        ensures { result ≡ result_map_both (λ _. record { cost = cost; barred = barred }) (λ e. e) (untried operator cost (bench self.now)) }
    {
        self.idle()?;
        self.row(operator)?;
        let cost = fitting(cost)?;
        Ok(Row { cost, barred })
    }

    // Lends the session with one row's cost and bar changed, until the trial ends.
    pub fn trial(&mut self, operator: usize, cost: u32, barred: bool) -> Trial<'_>
        ensures lent { result.session.ghost_name ≡ self.entry.ghost_name }
        ensures back { ended result ≡ bench self.old }
        ensures verdict { result.verdict ≡ untried operator cost (bench self.old) }
        ensures during { bench result.session.now ≡ trying result.verdict operator cost barred (bench self.old) }
    {
        let old = self.rows.at(operator);
        let tried = self.tried(operator, cost, barred);
        if let Ok(row) = tried {
            self.rows.put(operator, row);
        }
        let verdict = tried.map(|_| ());
        Trial {
            session: self,
            operator,
            old,
            verdict,
        }
    }

    // A trial that ends at once: whether it is taken.
    pub fn try_row(&mut self, operator: usize, cost: u32, barred: bool) -> Result<(), Refusal>
        ensures answer { result ≡ untried operator cost (bench self.old) }
        ensures same { bench self.new ≡ bench self.old }
    {
        self.trial(operator, cost, barred).verdict()
    }
}
