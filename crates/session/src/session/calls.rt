// Calls as values, and a session that makes a list of them.
ghost use Rattle.std.specs.Prelude.{◌≡◌, OnErr};
ghost use Rattle.session.specs.Answers.{leads};
ghost use Rattle.session.specs.Bench.{bench};
ghost use Rattle.session.specs.Calls.{Leads, Replayed};

use super::Session;
use super::refusal::Refusal;

// A ticket counts as its operator, and a trial ends at once.
#[derive(Clone, Copy)]
pub enum Call {
    SetCost(usize, u32),
    Bar(usize),
    Free(usize),
    Place(usize, u8),
    Begin(usize),
    Done(usize),
    Abandon(usize),
    Trial(usize, u32, bool),
    Wear,
}

impl Session {
    // By cases: the calls of a list are values.
    pub fn call(&mut self, call: Call) -> Result<(), Refusal>
        ensures answer { Leads call (bench self.old) (leads result (bench self.new)) }
        ensures unchanged { OnErr result (bench self.new ≡ bench self.old) }
    {
        match call {
            Call::SetCost(operator, cost) => self.set_cost(operator, cost),
            Call::Bar(operator) => self.bar(operator),
            Call::Free(operator) => self.free(operator),
            Call::Place(variable, value) => self.place(variable, value),
            Call::Begin(operator) => self.start(operator),
            Call::Done(operator) => self.finish(operator),
            Call::Abandon(operator) => self.leave(operator),
            Call::Trial(operator, cost, barred) => self.try_row(operator, cost, barred),
            Call::Wear => Ok(()),
        }
    }

    // Makes the calls in order; a refused one changes nothing, and the next is made.
    pub fn make(&mut self, calls: &[Call])
        ensures { Replayed (bench self.old) calls.now (bench self.new) }
    {
        for call in calls {
            let _ = self.call(*call);
        }
    }
}
