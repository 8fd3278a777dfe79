// Both lists on the same runs, and what came of it.
use crate::compare::same_keys;
use crate::numbers::Numbered;
use crate::run::{CAPACITY, Gave, mixed, tied};
use heap::Heap;
use keys::Key;
use lists::WaitingList;
use noting::Noting;
use scan::Scan;
use std::alloc::{AllocError, Global};

// Whether the log has just what was taken.
fn logged<K: Key + PartialEq, W: WaitingList<Key = K>>(w: &Noting<W>, gave: &Gave<K>) -> bool {
    w.complete() && w.noted() == gave.taken.as_slice()
}

// One line on what both lists gave.
fn line<K: Key>(
    heap: Global,
    name: &str,
    a: &Gave<K>,
    b: &Gave<K>,
    logged: bool,
) -> Result<String, AllocError> {
    let same = same_keys(&a.taken, &b.taken) && a.empty == b.empty && a.refused == b.refused;
    format!(in heap;
        "{name}: {} taken, {} times empty, {} refused, same keys: {same}, logs exact: {logged}",
        a.taken.len(),
        a.empty,
        a.refused
    )
}

pub(crate) fn report<K: Numbered + PartialEq>(
    heap: Global,
    name: &str,
) -> Result<String, AllocError> {
    let mut quick = Noting::new(heap, Heap::<K>::new(heap, CAPACITY)?);
    let mut plain = Noting::new(heap, Scan::<K>::new(heap, CAPACITY)?);
    let a = mixed(heap, &mut quick)?;
    let b = mixed(heap, &mut plain)?;
    let exact = logged(&quick, &a) && logged(&plain, &b);
    let first = line(heap, "mixed", &a, &b, exact)?;
    quick.restart();
    plain.restart();
    let a = tied(heap, &mut quick)?;
    let b = tied(heap, &mut plain)?;
    let exact = logged(&quick, &a) && logged(&plain, &b);
    let second = line(heap, "tied", &a, &b, exact)?;
    format!(in heap; "{name}\n{first}\n{second}\n")
}
