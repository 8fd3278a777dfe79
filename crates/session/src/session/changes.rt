// Changes of one row or of one variable; a refusal changes nothing.
ghost use Rattle.std.specs.Prelude.{◌≡◌, true, false};
ghost use Rattle.session.specs.Answers.{Answers};
ghost use Rattle.session.specs.Bench.{bench};
ghost use Rattle.session.specs.Changes.{barred_by, costed, placed};

use super::Session;
use super::conditions::fitting;
use super::refusal::Refusal;

impl Session {
    pub fn wear(&self) -> u64
        ensures { result ≡ (bench self.now).wear }
    {
        self.wear
    }

    pub fn set_cost(&mut self, operator: usize, cost: u32) -> Result<(), Refusal>
        ensures { Answers result self.old self.new (costed operator cost (bench self.old)) }
    {
        self.row(operator)?;
        let cost = fitting(cost)?;
        self.rows.set_cost(operator, cost);
        Ok(())
    }

    fn set_bar(&mut self, operator: usize, barred: bool) -> Result<(), Refusal>
        ensures { Answers result self.old self.new (barred_by barred operator (bench self.old)) }
    {
        self.row(operator)?;
        self.rows.set_bar(operator, barred);
        Ok(())
    }

    pub fn bar(&mut self, operator: usize) -> Result<(), Refusal>
        ensures { Answers result self.old self.new (barred_by true operator (bench self.old)) }
    {
        self.set_bar(operator, true)
    }

    pub fn free(&mut self, operator: usize) -> Result<(), Refusal>
        ensures { Answers result self.old self.new (barred_by false operator (bench self.old)) }
    {
        self.set_bar(operator, false)
    }

    // Sets one variable of the present state.
    pub fn place(&mut self, variable: usize, value: u8) -> Result<(), Refusal>
        ensures { Answers result self.old self.new (placed variable value (bench self.old)) }
    {
        self.idle()?;
        let size = self.task.sizes().get(variable).ok_or(Refusal::NoSuch)?;
        if value >= *size {
            return Err(Refusal::NoSuch);
        }
        self.state[variable] = value;
        Ok(())
    }
}
