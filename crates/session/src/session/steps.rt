// Steps: a ticket stands for the step under way. It is neither copied nor let go, so it ends in `done` or `abandon`.
ghost use Rattle.std.specs.Prelude.{◌≡◌, ◌+◌, ◌≤◌, IfOk, OnErr, OnOk};
ghost use Rattle.sas.specs.States.{Step};
ghost use Rattle.session.specs.Answers.{Answers, leads};
ghost use Rattle.session.specs.Bench.{bench};
ghost use Rattle.session.specs.Begins.{Begins};
ghost use Rattle.session.specs.Changes.{finished, held, left};
ghost use Rattle.session.specs.Tickets.{returned};

use super::Session;
use super::refusal::Refusal;

const MOST: u64 = 1_099_511_627_776;

pub struct Ticket {
    operator: usize,
}

// A ticket that was not taken, with the reason.
pub struct Returned {
    pub ticket: Ticket,
    pub refusal: Refusal,
}

// A ticket is spent where its step has ended, and else handed back.
fn spent(ticket: Ticket, answer: Result<(), Refusal>) -> Result<(), Returned>
    ensures { result ≡ returned ticket answer }
{
    // By cases: under `map_err` the closure would hold the ticket in both.
    match answer {
        Ok(()) => {
            let Ticket { operator: _ } = ticket;
            Ok(())
        }
        Err(refusal) => Err(Returned { ticket, refusal }),
    }
}

// A cost more, held at the most.
pub(super) fn added(sum: u64, cost: u16) -> u64
    requires { sum ≤ 1099511627776 }
    ensures { result ≡ held (sum + cost) }
{
    (sum + u64::from(cost)).min(MOST)
}

impl Session {
    pub(super) fn start(&mut self, operator: usize) -> Result<(), Refusal>
        ensures answer { Begins operator (bench self.old) (leads result (bench self.new)) }
        ensures untouched { OnErr result (self.new ≡ self.old) }
    {
        self.idle()?;
        self.unbarred(operator)?;
        if !states::applies(&self.task, operator, self.state.as_slice()) {
            return Err(Refusal::Unmet);
        }
        self.step = Some(operator);
        Ok(())
    }

    pub(super) fn finish(&mut self, operator: usize) -> Result<(), Refusal>
        ensures ended { Answers result self.old self.new (finished operator (bench self.old)) }
        ensures moved { OnOk result (Step (bench self.old).model operator (bench self.old).state (bench self.new).state) }
    {
        self.leave(operator)?;
        self.wear = added(self.wear, self.rows.at(operator).cost);
        let _ = states::apply(&self.task, operator, self.state.as_mut_slice());
        Ok(())
    }

    pub(super) fn leave(&mut self, operator: usize) -> Result<(), Refusal>
        ensures { Answers result self.old self.new (left operator (bench self.old)) }
    {
        if self.step != Some(operator) {
            return Err(Refusal::NoStep);
        }
        self.step = None;
        Ok(())
    }

    // Hands out a ticket for the operator.
    pub fn begin(&mut self, operator: usize) -> Result<Ticket, Refusal>
        ensures answer { Begins operator (bench self.old) (leads result (bench self.new)) }
        ensures ticket { IfOk result (λ t. t ≡ record { operator = operator }) }
        ensures untouched { OnErr result (self.new ≡ self.old) }
    {
        self.start(operator)?;
        Ok(Ticket { operator })
    }

    // Ends the step: its effects are put in, and its cost of this moment is added to the wear.
    pub fn done(&mut self, ticket: Ticket) -> Result<(), Returned>
        ensures ended { Answers result self.old self.new (returned ticket (finished ticket.operator (bench self.old))) }
        ensures moved { OnOk result (Step (bench self.old).model ticket.operator (bench self.old).state (bench self.new).state) }
    {
        let answer = self.finish(ticket.operator);
        spent(ticket, answer)
    }

    // Ends the step and leaves state and wear as they are.
    pub fn abandon(&mut self, ticket: Ticket) -> Result<(), Returned>
        ensures { Answers result self.old self.new (returned ticket (left ticket.operator (bench self.old))) }
    {
        let answer = self.leave(ticket.operator);
        spent(ticket, answer)
    }
}
