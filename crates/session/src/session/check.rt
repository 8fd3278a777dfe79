// A check of given steps against a session: nothing is written.
ghost use Rattle.std.specs.Prelude.{◌≡◌};
ghost use Rattle.session.specs.Bench.{bench};
ghost use Rattle.session.specs.Checks.{Checked, Followed, Went, refusal_of, step_of};

use super::Session;
use super::refusal::Refusal;
use super::steps::added;

// A step is under way; a given step is bad; or the steps end outside the goal.
#[derive(Clone, Copy)]
pub enum CheckFault {
    Busy,
    At(usize, Refusal),
    NoGoal,
}

impl CheckFault {
    pub fn refusal(&self) -> Refusal
        ensures { result ≡ refusal_of self.now }
    {
        match self {
            CheckFault::Busy => Refusal::StepUnderWay,
            CheckFault::At(_, refusal) => *refusal,
            CheckFault::NoGoal => Refusal::OutsideGoal,
        }
    }

    // The bad step, numbered from 0.
    pub fn step(&self) -> Option<usize>
        ensures { result ≡ step_of self.now }
    {
        match self {
            CheckFault::At(i, _) => Some(*i),
            CheckFault::Busy | CheckFault::NoGoal => None,
        }
    }
}

impl Session {
    // Makes the step of an operator on the values, and answers with its cost.
    fn go(&self, operator: usize, values: &mut [u8]) -> Result<u16, Refusal>
        ensures { Went (bench self.now) operator values.old values.new result }
    {
        let row = self.unbarred(operator)?;
        if !states::apply(&self.task, operator, values) {
            return Err(Refusal::Unmet);
        }
        Ok(row.cost)
    }

    // Follows the steps on the values of the present state, to the sum of their costs or the first bad one.
    fn follow(&self, steps: &[usize], values: &mut [u8]) -> Result<u64, CheckFault>
        requires { values.old ≡ (bench self.now).state }
        ensures { Followed (bench self.now) steps.now values.new result }
    {
        let mut sum: u64 = 0;
        for (i, operator) in steps.iter().enumerate() {
            let cost = self
                .go(*operator, values)
                .map_err(|refusal| CheckFault::At(i, refusal))?;
            sum = added(sum, cost);
        }
        Ok(sum)
    }

    // The cost of the steps as a run from the present state to the goal.
    pub fn check(&self, steps: &[usize]) -> Result<u64, CheckFault>
        ensures { Checked (bench self.now) steps.now result }
    {
        self.idle().map_err(|_| CheckFault::Busy)?;
        // Fixed room: a check takes no memory.
        let mut room = [0u8; 16];
        let values = &mut room[..states::variables(&self.task)];
        values.copy_from_slice(self.state.as_slice());
        let sum = self.follow(steps, values)?;
        if !states::is_goal(&self.task, values) {
            return Err(CheckFault::NoGoal);
        }
        Ok(sum)
    }
}
