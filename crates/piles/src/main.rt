// Asks a pile of three layers over the sample card's task for shares, heights and soundness.
#![tactic(auto)]

use crate::toll::Toll;
use anyhow::ensure;
use estimators::{Blind, Estimator, HigherOf, SumOf, first_overcharged, is_sound};
use sas::Row;
use std::alloc::{AllocError, Global};
use std::io;
use tasks::{Card, Task};

mod toll;

const SAMPLE: &[u8] =
    b"V\tlift\t2\t1\t1\nV\trollers\t2\t0\t0\nV\taxle\t2\t0\t1\nO\tlower\t3\nR\t0\t1\nE\t0\t0\nO\traise\t4\nR\t0\t0\nR\t1\t0\nE\t0\t1\nO\tspin\t2\nR\t0\t0\nE\t1\t1\nO\thalt\t1\nR\t1\t1\nE\t1\t0\nO\tmeasure\t5\nR\t1\t1\nE\t2\t1\nT\t2\nT\t0\t1\n";

fn tell_height<E: Estimator>(rt: &HostRuntime, pile: &E, rank: usize) -> io::Result<()> {
    match pile.height(rank) {
        Some(height) => println!(rt; "rank {rank}: height {height}"),
        None => println!(rt; "rank {rank}: dead"),
    }
}

fn tell_answers<E: Estimator>(rt: &HostRuntime, pile: &E, task: &Task) -> io::Result<()> {
    let is_for = pile.is_for(task);
    println!(rt; "for this task: {is_for}")?;
    for operator in [0usize, 4, 5] {
        let share = pile.share(operator);
        println!(rt; "operator {operator}: share {share}")?;
    }
    for rank in [0usize, 7, 8] {
        tell_height(rt, pile, rank)?;
    }
    Ok(())
}

fn tell_soundness<E: Estimator>(
    rt: &HostRuntime,
    pile: &E,
    task: &Task,
    rows: &[Row],
) -> io::Result<()> {
    if is_sound(pile, task, rows) {
        return println!(rt; "sound");
    }
    match first_overcharged(pile, rows) {
        Some(operator) => println!(rt; "not sound, operator {operator}"),
        None => println!(rt; "not sound, not for this task"),
    }
}

// The rows of operators at these costs, one of which may be barred.
fn rows_at(heap: Global, costs: &[u16], bar: Option<usize>) -> Result<Vec<Row>, AllocError> {
    let numbered = costs.iter().enumerate();
    let rows = numbered.map(|(operator, cost)| Row {
        cost: *cost,
        barred: Some(operator) == bar,
    });
    rows.collect(heap)
}

// At the card's costs, with and without a bar, and at other costs.
fn tell_costs<E: Estimator>(
    rt: &HostRuntime,
    pile: &E,
    task: &Task,
    costs: &[u16],
) -> anyhow::Result<()> {
    let heap = rt.alloc();
    tell_soundness(rt, pile, task, &rows_at(heap, costs, None)?)?;
    tell_soundness(rt, pile, task, &rows_at(heap, costs, Some(3))?)?;
    tell_soundness(rt, pile, task, &rows_at(heap, &[2, 1, 1, 1, 1], None)?)?;
    tell_soundness(rt, pile, task, &rows_at(heap, &[2; 5], None)?)?;
    Ok(())
}

fn tell_other<E: Estimator>(rt: &HostRuntime, pile: &E) -> anyhow::Result<()> {
    let other = Task::smallest(rt.alloc())?;
    let is_for = pile.is_for(&other);
    println!(rt; "for another task: {is_for}")?;
    tell_soundness(rt, pile, &other, &rows_at(rt.alloc(), &[2; 5], None)?)?;
    Ok(())
}

// A sum that is held at K.
fn tell_heavy(rt: &HostRuntime, task: &Task) -> anyhow::Result<()> {
    let first = Toll::new(task, 1)?;
    let second = Toll::new(task, u64::MAX)?;
    let share = SumOf { first, second }.share(0);
    println!(rt; "heavy: share {share}")?;
    Ok(())
}

type Pile = HigherOf<SumOf<Toll, HigherOf<Blind, Toll>>, Blind>;

fn pile_over(task: &Task) -> Result<Pile, AllocError> {
    let lower = HigherOf {
        first: Blind::new(task)?,
        second: Toll::new(task, 1)?,
    };
    let middle = SumOf {
        first: Toll::new(task, 1)?,
        second: lower,
    };
    Ok(HigherOf {
        first: middle,
        second: Blind::new(task)?,
    })
}

fn tell_pile(rt: &HostRuntime, task: &Task, costs: &[u16]) -> anyhow::Result<()> {
    let pile = pile_over(task)?;
    tell_answers(rt, &pile, task)?;
    tell_costs(rt, &pile, task, costs)?;
    tell_other(rt, &pile)
}

fn run(rt: &HostRuntime) -> anyhow::Result<()> {
    let heap = rt.alloc();
    let mut card = Card::built_in(heap)?;
    ensure!(card.read(heap, SAMPLE).is_ok(), "the sample is not read");
    let costs = card.costs(heap)?;
    tell_pile(rt, card.task(), costs.as_slice())?;
    tell_heavy(rt, card.task())
}

fn main(rt: HostRuntime) -> anyhow::Result<()> {
    run(&rt)
}
