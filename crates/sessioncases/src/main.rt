// Runs sessions on the sample card and prints what each call answers.
#![tactic(auto)]

use anyhow::{Context, anyhow};
use session::{Call, Refusal, Returned, Session};
use std::alloc::{AllocError, Global};
use tasks::Card;

const CARD: &[u8] =
    b"V\tlift\t2\t1\t1\nV\trollers\t2\t0\t0\nV\taxle\t2\t0\t1\nO\tlower\t3\nR\t0\t1\nE\t0\t0\nO\traise\t4\nR\t0\t0\nR\t1\t0\nE\t0\t1\nO\tspin\t2\nR\t0\t0\nE\t1\t1\nO\thalt\t1\nR\t1\t1\nE\t1\t0\nO\tmeasure\t5\nR\t1\t1\nE\t2\t1\nT\t2\nT\t0\t1\n";

const LOWER: usize = 0;

const RAISE: usize = 1;

const SPIN: usize = 2;

const HALT: usize = 3;

const MEASURE: usize = 4;

const NONE: usize = 5;

const PLAN: [usize; 5] = [LOWER, SPIN, MEASURE, HALT, RAISE];

fn number(refusal: &Refusal) -> anyhow::Result<u8> {
    refusal.number().context("no memory")
}

fn tell(rt: &HostRuntime, case: &str, answer: Result<(), Refusal>) -> anyhow::Result<()> {
    match answer {
        Ok(()) => println!(rt; "{case}: done")?,
        Err(refusal) => {
            let number = number(&refusal)?;
            println!(rt; "{case}: refused {number}")?;
        }
    }
    Ok(())
}

fn ask(rt: &HostRuntime, session: &mut Session, cases: &[(&str, Call)]) -> anyhow::Result<()> {
    for (case, call) in cases {
        tell(rt, case, session.call(*call))?;
    }
    Ok(())
}

fn wear(rt: &HostRuntime, session: &Session) -> anyhow::Result<()> {
    let wear = session.wear();
    println!(rt; "wear {wear}")?;
    Ok(())
}

fn check(rt: &HostRuntime, session: &Session, case: &str, steps: &[usize]) -> anyhow::Result<()> {
    match session.check(steps) {
        Ok(cost) => println!(rt; "{case}: cost {cost}")?,
        Err(fault) => {
            let number = number(&fault.refusal())?;
            match fault.step() {
                Some(step) => println!(rt; "{case}: refused {number} at step {step}")?,
                None => println!(rt; "{case}: refused {number}")?,
            }
        }
    }
    Ok(())
}

fn costs(heap: Global, card: &Card<'_>) -> Result<Vec<u32>, AllocError> {
    card.costs(heap)?
        .iter()
        .map(|cost| u32::from(*cost))
        .collect(heap)
}

fn open(
    rt: &HostRuntime,
    card: &Card<'_>,
    case: &str,
    costs: &[u32],
    values: &[u8],
) -> anyhow::Result<()> {
    let opened = Session::open(rt.alloc(), card.task(), costs, values);
    tell(rt, case, opened.map(|_| ()))
}

// A session on the card's start and costs.
fn opened(heap: Global, card: &Card<'_>) -> anyhow::Result<Session> {
    let costs = costs(heap, card)?;
    let start = card.start(heap)?;
    Session::open(heap, card.task(), costs.as_slice(), start.as_slice()).map_err(|_| anyhow!(
        "no session"
    ))
}

fn openings(rt: &HostRuntime, card: &Card<'_>) -> anyhow::Result<()> {
    let costs = [3, 4, 2, 1, 5];
    let high = [3, 4, 2, 1, 65536];
    let highest = [3, 4, 2, 1, 65535];
    open(rt, card, "open with two values", &costs, &[1, 0])?;
    open(rt, card, "open with a value outside", &costs, &[1, 0, 2])?;
    open(rt, card, "open with four costs", &costs[..4], &[1, 0, 0])?;
    open(rt, card, "open at 65536", &high, &[1, 0, 0])?;
    open(
        rt,
        card,
        "open at 65536 with a value outside",
        &high,
        &[2, 0, 0],
    )?;
    open(rt, card, "open at 65535", &highest, &[0, 1, 1])
}

fn rows(rt: &HostRuntime, session: &mut Session) -> anyhow::Result<()> {
    let cases = [
        ("cost of none", Call::SetCost(NONE, 1)),
        ("cost 65536 of none", Call::SetCost(NONE, 65536)),
        ("cost 65536", Call::SetCost(LOWER, 65536)),
        ("bar none", Call::Bar(NONE)),
        ("free none", Call::Free(NONE)),
        ("place no variable", Call::Place(3, 0)),
        ("place no value", Call::Place(0, 2)),
        ("begin none", Call::Begin(NONE)),
        ("bar lower", Call::Bar(LOWER)),
        ("begin lower, barred", Call::Begin(LOWER)),
        ("bar raise", Call::Bar(RAISE)),
        ("begin raise, barred", Call::Begin(RAISE)),
        ("free raise", Call::Free(RAISE)),
        ("begin raise", Call::Begin(RAISE)),
        ("free lower", Call::Free(LOWER)),
        ("done with no step", Call::Done(LOWER)),
        ("abandon with no step", Call::Abandon(LOWER)),
    ];
    ask(rt, session, &cases)?;
    wear(rt, session)
}

fn steps(rt: &HostRuntime, session: &mut Session) -> anyhow::Result<()> {
    let cases = [
        ("begin lower", Call::Begin(LOWER)),
        ("begin none in a step", Call::Begin(NONE)),
        ("place no variable in a step", Call::Place(3, 0)),
        ("trial of none in a step", Call::Trial(NONE, 65536, true)),
        ("done spin in a step of lower", Call::Done(SPIN)),
        ("cost 7 in the step", Call::SetCost(LOWER, 7)),
        ("bar lower in the step", Call::Bar(LOWER)),
    ];
    ask(rt, session, &cases)?;
    check(rt, session, "check in a step", &[NONE])?;
    let cases = [
        ("done lower", Call::Done(LOWER)),
        ("free lower", Call::Free(LOWER)),
    ];
    ask(rt, session, &cases)?;
    wear(rt, session)
}

fn tickets(rt: &HostRuntime, session: &mut Session) -> anyhow::Result<()> {
    let cases = [
        ("begin spin", Call::Begin(SPIN)),
        ("abandon spin", Call::Abandon(SPIN)),
    ];
    ask(rt, session, &cases)?;
    wear(rt, session)?;
    check(rt, session, "check measure first", &[MEASURE])?;
    tell(rt, "spin", following::step(session, SPIN))?;
    wear(rt, session)?;
    check(rt, session, "check the rest", &[MEASURE, HALT, RAISE])?;
    tell(rt, "measure", following::step(session, MEASURE))?;
    tell(rt, "raise", following::step(session, RAISE))?;
    wear(rt, session)
}

fn checks(rt: &HostRuntime, session: &mut Session) -> anyhow::Result<()> {
    let cases = [
        ("place lift 1", Call::Place(0, 1)),
        ("place rollers 0", Call::Place(1, 0)),
        ("place axle 0", Call::Place(2, 0)),
    ];
    ask(rt, session, &cases)?;
    check(rt, session, "check the plan", &PLAN)?;
    check(rt, session, "check nothing", &[])?;
    check(rt, session, "check a front", &[LOWER, SPIN, MEASURE])?;
    check(rt, session, "check none", &[LOWER, NONE, RAISE])?;
    check(rt, session, "check raise twice", &[LOWER, RAISE, RAISE])?;
    check(rt, session, "check raise and none", &[RAISE, NONE])?;
    tell(rt, "bar spin", session.bar(SPIN))?;
    check(rt, session, "check the plan, barred", &PLAN)?;
    check(rt, session, "check spin, barred and unmet", &[SPIN])?;
    tell(rt, "free spin", session.free(SPIN))
}

fn trials(rt: &HostRuntime, session: &mut Session) -> anyhow::Result<()> {
    let cases = [
        ("trial of none", Call::Trial(NONE, 65536, false)),
        ("trial at 65536", Call::Trial(LOWER, 65536, false)),
        ("trial at 65535", Call::Trial(LOWER, 65535, true)),
    ];
    ask(rt, session, &cases)?;
    check(rt, session, "check the plan", &PLAN)?;
    following::try_rows(session, LOWER, SPIN, 9, true);
    following::try_rows(session, LOWER, NONE, 9, false);
    check(rt, session, "check the plan", &PLAN)?;
    session.make(&[
        Call::Bar(LOWER),
        Call::Begin(LOWER),
        Call::SetCost(LOWER, 3),
        Call::Free(LOWER),
        Call::Begin(LOWER),
        Call::Place(0, 1),
        Call::Trial(LOWER, 1, true),
        Call::Wear,
        Call::Done(LOWER),
    ]);
    wear(rt, session)
}

// A ticket of one session, handed to another that refuses to end its step, and then to its own.
fn stray(a: &mut Session, b: &mut Session) -> Result<(Refusal, Refusal), Refusal> {
    let ticket = a.begin(SPIN)?;
    // By `let else`, twice: after `err` and `ok_or` it is not proved that its own session takes the ticket.
    let answer = b.done(ticket);
    let Err(
        Returned {
            ticket,
            refusal: at_done,
        },
    ) = answer
    else {
        return Err(Refusal::NoStep);
    };
    let answer = b.abandon(ticket);
    let Err(
        Returned {
            ticket,
            refusal: at_abandon,
        },
    ) = answer
    else {
        return Err(Refusal::NoStep);
    };
    match a.done(ticket) {
        Ok(()) => Ok((at_done, at_abandon)),
        Err(_returned) => unreachable(),
    }
}

fn astray(rt: &HostRuntime, a: &mut Session, b: &mut Session) -> anyhow::Result<()> {
    match stray(a, b) {
        Ok((at_done, at_abandon)) => {
            tell(rt, "done elsewhere", Err(at_done))?;
            tell(rt, "abandon elsewhere", Err(at_abandon))?;
        }
        Err(refusal) => tell(rt, "begin spin", Err(refusal))?,
    }
    wear(rt, a)?;
    wear(rt, b)
}

// Spins and halts at the highest cost until the wear is held.
fn worn(rt: &HostRuntime, session: &mut Session) -> anyhow::Result<()> {
    tell(rt, "cost 65535 of spin", session.set_cost(SPIN, 65535))?;
    tell(rt, "cost 65535 of halt", session.set_cost(HALT, 65535))?;
    for _ in 0..8_388_800 {
        session.make(&[
            Call::Begin(SPIN),
            Call::Done(SPIN),
            Call::Begin(HALT),
            Call::Done(HALT),
        ]);
    }
    wear(rt, session)
}

fn run(rt: &HostRuntime) -> anyhow::Result<()> {
    let heap = rt.alloc();
    let mut card = Card::built_in(heap)?;
    card.read(heap, CARD)
        .map_err(|_| anyhow!("the sample is not read"))?;
    openings(rt, &card)?;
    let mut session = opened(heap, &card)?;
    rows(rt, &mut session)?;
    steps(rt, &mut session)?;
    tickets(rt, &mut session)?;
    checks(rt, &mut session)?;
    trials(rt, &mut session)?;
    let mut other = opened(heap, &card)?;
    astray(rt, &mut session, &mut other)?;
    tell(rt, "halt", following::step(&mut session, HALT))?;
    worn(rt, &mut session)
}

fn main(rt: HostRuntime) -> anyhow::Result<()> {
    run(&rt)
}
