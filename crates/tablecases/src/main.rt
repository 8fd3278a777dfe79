// Builds and opens tables of the sample card, and prints their entries, heights and each refusal.
#![tactic(auto)]

use anyhow::{Context, anyhow};
use estimators::{Estimator, HigherOf, SumOf};
use heap::Heap;
use keys::Distance;
use lists::WaitingList;
use scan::Scan;
use tables::{MARK, Table, TableRefusal, build};
use tasks::{Card, Task};

const SAMPLE: &[u8] =
    b"V\tlift\t2\t1\t1\nV\trollers\t2\t0\t0\nV\taxle\t2\t0\t1\nO\tlower\t3\nR\t0\t1\nE\t0\t0\nO\traise\t4\nR\t0\t0\nR\t1\t0\nE\t0\t1\nO\tspin\t2\nR\t0\t0\nE\t1\t1\nO\thalt\t1\nR\t1\t1\nE\t1\t0\nO\tmeasure\t5\nR\t1\t1\nE\t2\t1\nT\t2\nT\t0\t1\n";

const SHARES: [u32; 5] = [3, 4, 2, 1, 5];

// From value 2 no operator leads on, so that its entry is the mark.
const STUCK: &[u8] = b"V\ta\t3\t0\t1\nO\tup\t7\nR\t0\t0\nE\t0\t1\nT\t0\n";

fn tell(rt: &HostRuntime, case: &str, refusal: TableRefusal) -> anyhow::Result<()> {
    let number = refusal.number().context("no memory")?;
    println!(rt; "{case}: refused {number}")?;
    Ok(())
}

fn show(rt: &HostRuntime, case: &str, entries: &[u64]) -> anyhow::Result<()> {
    for (rank, entry) in entries.iter().enumerate() {
        if *entry == MARK {
            println!(rt; "{case}, {rank}: dead")?;
        } else {
            println!(rt; "{case}, {rank}: {entry}")?;
        }
    }
    Ok(())
}

// Builds in entries that held 9 before.
fn built<W: WaitingList<Key = Distance>>(
    rt: &HostRuntime,
    case: &str,
    task: &Task,
    pattern: &[u8],
    shares: &[u32],
    list: &mut W,
) -> anyhow::Result<()> {
    let mut entries = [9u64; 5];
    match build(rt.alloc(), task, pattern, shares, list, &mut entries) {
        Ok(()) => show(rt, case, &entries),
        Err(refusal) => tell(rt, case, refusal),
    }
}

fn build_all<W: WaitingList<Key = Distance>>(
    rt: &HostRuntime,
    task: &Task,
    list: &mut W,
) -> anyhow::Result<()> {
    let few = &SHARES[..4];
    let heavy = &[3, 4, 2, 1, 65536];
    let cases: [(&str, &[u8], &[u32]); 8] = [
        ("axle", &[2], &SHARES),
        ("lift and rollers", &[0, 1], &SHARES),
        ("in another order, one twice", &[1, 0, 1], &SHARES),
        ("no pattern", &[], &SHARES),
        ("outside", &[0, 3], &SHARES),
        ("four shares", &[0], few),
        ("heavy share", &[0], heavy),
        ("all variables", &[0, 1, 2], &SHARES),
    ];
    for (case, pattern, shares) in cases {
        built(rt, case, task, pattern, shares, list)?;
    }
    Ok(())
}

fn open(rt: &HostRuntime, case: &str, task: &Task, entries: &[u64]) -> anyhow::Result<()> {
    match Table::open(rt.alloc(), task, &[2], &SHARES, entries) {
        Ok(_) => println!(rt; "{case}: opened")?,
        Err(refusal) => tell(rt, case, refusal)?,
    }
    Ok(())
}

fn open_all(rt: &HostRuntime, task: &Task) -> anyhow::Result<()> {
    let cases: [(&str, &[u64]); 8] = [
        ("as built", &[5, 0]),
        ("lower", &[0, 0]),
        ("too high", &[6, 0]),
        ("dead before the goal", &[MARK, 0]),
        ("goal not 0", &[5, 1]),
        ("over K", &[1099511627777, 0]),
        ("one entry", &[5]),
        ("one entry more", &[5, 0, 77]),
    ];
    for (case, entries) in cases {
        open(rt, case, task, entries)?;
    }
    Ok(())
}

fn tell_height<E: Estimator>(
    rt: &HostRuntime,
    case: &str,
    pile: &E,
    rank: usize,
) -> anyhow::Result<()> {
    match pile.height(rank) {
        Some(height) => println!(rt; "{case}, rank {rank}: {height}")?,
        None => println!(rt; "{case}, rank {rank}: dead")?,
    }
    Ok(())
}

fn opened<'a>(
    rt: &HostRuntime,
    task: &Task,
    pattern: &[u8],
    entries: &'a [u64],
) -> anyhow::Result<Table<'a>> {
    Table::open(rt.alloc(), task, pattern, &SHARES, entries).map_err(|_| anyhow!(
        "the table does not open"
    ))
}

fn tell_piles(rt: &HostRuntime, task: &Task) -> anyhow::Result<()> {
    let axle = [5, 0];
    let rest = [4, 0, 5, 1];
    let sum = SumOf {
        first: opened(rt, task, &[2], &axle)?,
        second: opened(rt, task, &[0, 1], &rest)?,
    };
    tell_height(rt, "sum", &sum, 2)?;
    tell_height(rt, "sum", &sum, 8)?;
    let higher = HigherOf {
        first: opened(rt, task, &[2], &axle)?,
        second: opened(rt, task, &[0, 1], &rest)?,
    };
    tell_height(rt, "higher", &higher, 2)?;
    for operator in [1usize, 4, 5] {
        let share = higher.first.share(operator);
        println!(rt; "axle, operator {operator}: share {share}")?;
    }
    Ok(())
}

fn read<'a>(rt: &HostRuntime, text: &'a [u8]) -> anyhow::Result<Card<'a>> {
    let mut card = Card::built_in(rt.alloc())?;
    card.read(rt.alloc(), text)
        .map_err(|_| anyhow!("the card is not read"))?;
    Ok(card)
}

fn run(rt: &HostRuntime) -> anyhow::Result<()> {
    let sample = read(rt, SAMPLE)?;
    let mut heap = Heap::new(rt.alloc(), 4)?;
    build_all(rt, sample.task(), &mut heap)?;
    let mut scan = Scan::new(rt.alloc(), 4)?;
    build_all(rt, sample.task(), &mut scan)?;
    let stuck = read(rt, STUCK)?;
    built(rt, "stuck", stuck.task(), &[0], &[7], &mut heap)?;
    open_all(rt, sample.task())?;
    tell_piles(rt, sample.task())
}

fn main(rt: HostRuntime) -> anyhow::Result<()> {
    run(&rt)
}
