// A waiting list that looks through all its ranks for the least key.
#![tactic(auto)]

ghost use Rattle.std.specs.Prelude.{IfOk};
ghost use Rattle.lists.specs.Waits.{Fresh};
ghost use Rattle.scan.specs.Means.{scan_places, scan_waiting, scan_ordered};
ghost use Rattle.scan.specs.Rows.{Least};
ghost use Rattle.std.proofs.Common.{arith};
ghost use Rattle.std.proofs.lemmas.List.{get_or_past};

use keys::Key;
use lists::{PutRefusal, WaitingList};
use std::alloc::{AllocError, Global};

// The key of each rank that waits.
#[derive(Drop)]
pub struct Scan<K> {
    keys: Vec<Option<K>>,
}

impl<K: Key> Scan<K> {
    // A list with this capacity.
    pub fn new(heap: Global, capacity: usize) -> Result<Scan<K>, AllocError>
        ensures { IfOk result (λ s. Fresh scan_places scan_waiting scan_ordered capacity s) }
    {
        Ok(Scan {
            keys: vec![in heap; None; capacity]?,
        })
    }

    // The least key and its rank. By a loop: its proof is a hundred lines shorter than that of `reduce`.
    fn least(&self) -> Option<(usize, K)>
        ensures { Least K.Key.leq self.now.keys.items result }
    {
        let mut best: Option<(usize, K)> = None;
        for (rank, key) in self.keys.iter().enumerate() {
            if let Some(key) = *key {
                best = match best {
                    Some((at, old)) if old.at_most(key) => Some((at, old)),
                    _ => Some((rank, key)),
                };
            }
        }
        best
    }
}

impl<K: Key> WaitingList for Scan<K> {
    type Key = K;

    ghost places = { scan_places };

    ghost waiting = { scan_waiting };

    ghost ordered = { scan_ordered };

    ghost within = { λ w q _ h. get_or_past _ q _ (omega (arith, w.keys.ok.0)) };

    fn capacity(&self) -> usize {
        self.keys.len()
    }

    fn clear(&mut self) {
        self.keys.fill(None);
    }

    fn put(&mut self, rank: usize, key: K) -> Result<(), PutRefusal> {
        let waits = self.keys.get_mut(rank).ok_or(PutRefusal::NoPlace)?;
        match waits {
            Some(old) if old.at_most(key) => {}
            _ => *waits = Some(key),
        }
        Ok(())
    }

    fn take(&mut self) -> Option<(usize, K)> {
        let (rank, key) = self.least()?;
        self.keys[rank] = None;
        Some((rank, key))
    }
}
