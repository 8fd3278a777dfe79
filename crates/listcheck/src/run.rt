// What a list gives over a run of puts and takes.
ghost use Rattle.std.specs.Prelude.{◌+◌, ◌≤◌};

use crate::numbers::{Numbered, Numbers};
use drains::drain;
use keys::Key;
use lists::WaitingList;
use std::alloc::{AllocError, Global};

pub(crate) const CAPACITY: usize = 24;

// What was taken, how often there was nothing to take, and how many puts were refused.
#[derive(Drop)]
pub(crate) struct Gave<K: Key> {
    pub(crate) taken: Vec<(usize, K)>,
    pub(crate) empty: u64,
    pub(crate) refused: u64,
}

// Puts a key that is made from a number, and says whether the list took it.
fn put_at<K: Numbered, W: WaitingList<Key = K>>(w: &mut W, rank: u64, n: u64) -> bool {
    !w.put(rank as usize, K::numbered(n))
        .is_err_and(|refusal| refusal.number() == 17)
}

// Puts and takes in turn. No two ranks have equal keys, and a few ranks are past the capacity. By a loop: what is counted are
// events, and each turn changes the list and the numbers too.
fn take_turns<K: Numbered, W: WaitingList<Key = K>>(
    w: &mut W,
    numbers: &mut Numbers,
    gave: &mut Gave<K>,
) -> Result<(), AllocError>
    requires { (gave.old.empty ≤ 200) × (gave.old.refused ≤ 200) }
    ensures { (gave.new.empty ≤ gave.old.empty + 200) × (gave.new.refused ≤ gave.old.refused + 200) }
{
    for _ in 0..200u64 {
        if numbers.below(3) < 2 {
            let rank = numbers.below(27);
            let n = numbers.below(50) * 32 + rank;
            if !put_at(w, rank, n) {
                gave.refused += 1;
            }
        } else {
            match w.take() {
                Some(pair) => gave.taken.push(pair)?,
                None => gave.empty += 1,
            }
        }
    }
    Ok(())
}

// Many turns, a clear, and as many again.
pub(crate) fn mixed<K: Numbered, W: WaitingList<Key = K>>(
    heap: Global,
    w: &mut W,
) -> Result<Gave<K>, AllocError> {
    let mut numbers = Numbers::new(1);
    let mut gave = Gave {
        taken: Vec::new(heap),
        empty: 0,
        refused: 0,
    };
    take_turns(w, &mut numbers, &mut gave)?;
    w.clear();
    take_turns(w, &mut numbers, &mut gave)?;
    Ok(gave)
}

// Forty puts under six keys, so that many ranks have equal keys. Says how many were refused.
fn put_tied<K: Numbered, W: WaitingList<Key = K>>(w: &mut W, numbers: &mut Numbers) -> u64
    ensures { result ≤ 40 }
{
    // By a loop: a closure that counts would also change the list and the numbers.
    let mut refused = 0;
    for _ in 0..40u64 {
        let rank = numbers.below(27);
        let n = numbers.below(6);
        if !put_at(w, rank, n) {
            refused += 1;
        }
    }
    refused
}

// Clears the list, and then fills and drains it a few times.
pub(crate) fn tied<K: Numbered, W: WaitingList<Key = K>>(
    heap: Global,
    w: &mut W,
) -> Result<Gave<K>, AllocError> {
    let mut numbers = Numbers::new(2);
    let mut taken = Vec::new(heap);
    let mut refused = 0;
    w.clear();
    for _ in 0..8u64 {
        refused += put_tied(w, &mut numbers);
        let batch = drain(heap, w)?;
        taken.extend_from_slice(&batch)?;
    }
    Ok(Gave {
        taken,
        empty: 0,
        refused,
    })
}
