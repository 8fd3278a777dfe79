// Reads a card from standard input, builds the table of each T line at the card's costs, and prints for each how many
// projected states there are, from how many of them the goal is reached, and the sum of their entries.
#![tactic(auto)]

use anyhow::ensure;
use heap::Heap;
use keys::Distance;
use lists::WaitingList;
use states::state_count;
use std::io::Read;
use tables::{MARK, build};
use tasks::{Card, Task};

// One byte more than a card may have.
const MOST_BYTES: u64 = 16385;

// How many entries are numbers, and their sum.
fn summed(entries: &[u64]) -> (u64, u64) {
    let numbers = entries.iter().filter(|entry| **entry != MARK);
    numbers.fold(
        (0, 0),
        |(count, sum): (u64, u64), entry| (count.saturating_add(1), sum.saturating_add(*entry)),
    )
}

// How many states the variables of a pattern have together.
fn projected_count(task: &Task, pattern: &[u8]) -> usize {
    let sizes = pattern
        .iter()
        .filter_map(|v| states::size(task, usize::from(*v)));
    sizes.fold(
        1,
        |count: usize, size| count.saturating_mul(usize::from(size)),
    )
}

fn tell_table(rt: &HostRuntime, task: &Task, pattern: &[u8], shares: &[u32]) -> anyhow::Result<()> {
    let heap = rt.alloc();
    let mut list: Heap<Distance> = Heap::new(heap, state_count(task))?;
    let count = projected_count(task, pattern);
    let mut entries = vec![in heap; MARK; count]?;
    match build(
        heap,
        task,
        pattern,
        shares,
        &mut list,
        entries.as_mut_slice(),
    ) {
        Ok(()) => {
            let (reached, sum) = summed(entries.as_slice());
            println!(rt; "{count}\t{reached}\t{sum}")?;
        }
        Err(refusal) => {
            // Want of memory has no number and is printed as 0.
            let number = refusal.number().unwrap_or(0);
            println!(rt; "refused\t{number}")?;
        }
    }
    Ok(())
}

fn run(rt: &HostRuntime) -> anyhow::Result<()> {
    let heap = rt.alloc();
    let mut bytes = Vec::new(heap);
    rt.stdin().take(MOST_BYTES).read_to_end(&mut bytes)?;
    let mut card = Card::built_in(heap)?;
    ensure!(card.read(heap, &bytes).is_ok(), "the card is not read");
    let costs = card.costs(heap)?;
    let shares: Vec<u32> = costs.iter().map(|cost| u32::from(*cost)).collect(heap)?;
    for pattern in card.patterns() {
        tell_table(rt, card.task(), pattern.as_slice(), shares.as_slice())?;
    }
    Ok(())
}

fn main(rt: HostRuntime) -> anyhow::Result<()> {
    run(&rt)
}
