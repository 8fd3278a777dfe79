// Reads cards at the limits of what a card may be, and prints what the reader answers to each.
#![tactic(auto)]

use anyhow::Context;
use cards::CardFault;
use fields::Place;
use states::state_count;
use std::alloc::{AllocError, Global};
use tasks::Card;

const ONE: &[u8] = b"V\ta\t2\t0\t-\n";

// `text` and then the byte `fill` until there are `count` bytes.
fn filled(heap: Global, text: &[u8], fill: u8, count: usize) -> Result<Vec<u8>, AllocError> {
    let mut bytes = Vec::from_slice(heap, text)?;
    bytes.resize(count, fill)?;
    Ok(bytes)
}

fn joined(mut start: Vec<u8>, end: &[u8]) -> Result<Vec<u8>, AllocError> {
    start.extend_from_slice(end)?;
    Ok(start)
}

fn tell(rt: &HostRuntime, case: &str, fault: &CardFault) -> anyhow::Result<()> {
    let number = fault.number().context("no memory")?;
    let Place { line, field } = fault.place();
    println!(rt; "{case}: refused {number}, line {line}, field {field}")?;
    Ok(())
}

fn case(rt: &HostRuntime, case: &str, bytes: &[u8]) -> anyhow::Result<()> {
    let heap = rt.alloc();
    let mut card = Card::built_in(heap)?;
    match card.read(heap, bytes) {
        Ok(()) => {
            let count = state_count(card.task());
            println!(rt; "{case}: read, {count} states")?;
            Ok(())
        }
        Err(fault) => tell(rt, case, &fault),
    }
}

fn each(rt: &HostRuntime, cases: &[(&str, &[u8])]) -> anyhow::Result<()> {
    for (name, bytes) in cases {
        case(rt, name, bytes)?;
    }
    Ok(())
}

fn lengths(rt: &HostRuntime) -> anyhow::Result<()> {
    let heap = rt.alloc();
    let longest = filled(heap, ONE, b'\n', 16384)?;
    let too_long = filled(heap, ONE, b'\n', 16385)?;
    let last_line = b"\nV\ta\t2\t0\t-";
    let longest_line = joined(filled(heap, b"#", b'x', 200)?, last_line)?;
    let too_long_line = joined(filled(heap, b"#", b'x', 201)?, last_line)?;
    each(
        rt,
        &[
            ("empty card", b""),
            ("no last newline", b"V\ta\t2\t0\t-"),
            ("16384 bytes", longest.as_slice()),
            ("16385 bytes", too_long.as_slice()),
            ("line of 200 bytes", longest_line.as_slice()),
            ("line of 201 bytes", too_long_line.as_slice()),
            ("remark with byte 127", b"# \x7f\nV\ta\t2\t0\t-\n"),
        ],
    )
}

fn numbers(rt: &HostRuntime) -> anyhow::Result<()> {
    let heap = rt.alloc();
    let digits = joined(filled(heap, b"V\ta\t", b'9', 190)?, b"\t0\t-\n")?;
    each(
        rt,
        &[
            ("size 16", b"V\ta\t16\t15\t-\n"),
            ("size 17", b"V\ta\t17\t0\t-\n"),
            ("size 1", b"V\ta\t1\t0\t-\n"),
            ("size with a leading zero", b"V\ta\t02\t0\t-\n"),
            ("number of 186 digits", digits.as_slice()),
            ("start outside", b"V\ta\t2\t2\t-\n"),
            ("dash for a start", b"V\ta\t2\t-\t-\n"),
            ("cost 65535", b"V\ta\t2\t0\t-\nO\to\t65535\nE\t0\t1\n"),
            ("cost 65536", b"V\ta\t2\t0\t-\nO\to\t65536\nE\t0\t1\n"),
            ("name of 16 bytes", b"V\tabcdefghijklmnop\t2\t0\t-\n"),
            ("name of 17 bytes", b"V\tabcdefghijklmnopq\t2\t0\t-\n"),
            ("empty name", b"V\t\t2\t0\t-\n"),
        ],
    )
}

fn products(rt: &HostRuntime) -> anyhow::Result<()> {
    let heap = rt.alloc();
    let five = b"V\ta\t16\t0\t-\n".repeat(heap, 5)?;
    let six = joined(five.clone()?, b"V\tb\t2\t0\t-\n")?;
    let sixteen = ONE.repeat(heap, 16)?;
    let seventeen = ONE.repeat(heap, 17)?;
    each(
        rt,
        &[
            ("five variables of 16", five.as_slice()),
            ("and a sixth of 2", six.as_slice()),
            ("16 variables", sixteen.as_slice()),
            ("17 variables", seventeen.as_slice()),
        ],
    )
}

fn records(rt: &HostRuntime) -> anyhow::Result<()> {
    each(
        rt,
        &[
            ("unknown letter", b"X\ta\n"),
            ("letter alone", b"T\n"),
            ("E without an operator", b"V\ta\t2\t0\t-\nE\t0\t1\n"),
            ("V below an operator", b"O\to\t1\nV\ta\t2\t0\t-\n"),
            ("O below a pattern", b"V\ta\t2\t0\t-\nT\t0\nO\to\t1\n"),
            ("third pattern", b"V\ta\t2\t0\t-\nT\t0\nT\t0\nT\t0\n"),
            ("pattern outside", b"V\ta\t2\t0\t-\nT\t0\t1\n"),
            ("pattern with a variable twice", b"V\ta\t2\t0\t-\nT\t0\t0\n"),
            (
                "effect twice",
                b"V\ta\t2\t0\t-\nO\to\t1\nE\t0\t1\nE\t0\t0\n",
            ),
            (
                "precondition twice",
                b"V\ta\t2\t0\t-\nO\to\t1\nR\t0\t1\nE\t0\t1\nR\t0\t0\n",
            ),
            ("no variable", b"# nothing\n"),
            (
                "operator without an effect",
                b"V\ta\t2\t0\t-\n\nO\to\t1\nO\tp\t1\nE\t0\t0\n",
            ),
        ],
    )
}

fn run(rt: &HostRuntime) -> anyhow::Result<()> {
    lengths(rt)?;
    numbers(rt)?;
    products(rt)?;
    records(rt)
}

fn main(rt: HostRuntime) -> anyhow::Result<()> {
    run(&rt)
}
