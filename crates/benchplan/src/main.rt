// Reads a card from standard input and prints a cheapest plan, or why there is none.
#![tactic(auto)]

use crate::answer::{Plan, plan_card};
use crate::input::card_bytes;
use anyhow::anyhow;
use std::io;
use tasks::Card;

mod answer;
mod follow;
mod input;
mod refusal;
mod search;

fn print_step<'a>(rt: &HostRuntime, card: &Card<'a>, step: usize) -> io::Result<()> {
    let name = card.operator_name(step).unwrap_or(b"?");
    let name = std::str::from_utf8(name).unwrap_or("?");
    println!(rt; "step\t{step}\t{name}")
}

fn print<'a>(rt: &HostRuntime, card: &Card<'a>, plan: &Plan) -> io::Result<()> {
    println!(rt; "cost\t{}", plan.cost)?;
    for step in &plan.steps {
        print_step(rt, card, *step)?;
    }
    Ok(())
}

fn run(rt: &HostRuntime) -> anyhow::Result<()> {
    let heap = rt.alloc();
    let bytes = card_bytes(rt)?;
    let mut card = Card::built_in(heap)?;
    match plan_card(heap, &mut card, &bytes) {
        Ok(plan) => print(rt, &card, &plan)?,
        Err(refusal) if refusal.number().is_some() => println!(rt; "{refusal}")?,
        Err(refusal) => return Err(anyhow!("{refusal}")),
    }
    Ok(())
}

fn main(rt: HostRuntime) -> anyhow::Result<()> {
    run(&rt)
}
