// The heap as a waiting list.
ghost use Rattle.std.specs.Prelude.{◌≡◌, ℕ, ◌<◌, ◌≤◌, IfOk, IfSome, Some, None, true, false, slice_index, slice_set};
ghost use Rattle.lists.specs.Waits.{Fresh};
ghost use Rattle.heap.specs.Means.{heap_places, heap_waiting, heap_ordered};
ghost use Rattle.heap.specs.Rows.{at_most};
ghost use Rattle.std.proofs.Common.{subst};
ghost use Rattle.std.proofs.lemmas.List.{get_or_past};

use crate::ranking::Ranking;
use crate::store::Heap;
use keys::Key;
use lists::{PutRefusal, WaitingList};
use std::alloc::{AllocError, Global};

impl<K: Key> Heap<K> {
    // A list with this capacity.
    pub fn new(heap: Global, capacity: usize) -> Result<Heap<K>, AllocError>
        ensures { IfOk result (λ h. Fresh heap_places heap_waiting (heap_ordered K.Key.leq) capacity h) }
    {
        Ok(Heap {
            keys: vec![in heap; None; capacity]?,
            ranking: Ranking::new(heap, capacity)?,
            count: 0,
        })
    }

    // The first rank that waits, with its key.
    fn first(&self) -> Option<(usize, K)>
        ensures none { result ≡ None → (q : ℕ) → heap_waiting self.now q ≡ None }
        ensures some { IfSome result (λ p. (0 < self.now.count) × (p.0 ≡ slice_index self.now.ranking.order.items 0) × (heap_waiting self.now p.0 ≡ Some p.1)) }
        ensures least { heap_ordered K.Key.leq self.now → IfSome result (λ p. (q : ℕ) (k : K) → heap_waiting self.now q ≡ Some k → K.Key.leq p.1 k ≡ true) }
    {
        let rank = self.ranking.first()?;
        let key = self.keys[rank]?;
        Some((rank, key))
    }

    // Sets the key of a rank that waits to a lower one.
    fn lower(&mut self, rank: usize, key: K)
        requires { at_most K.Key.leq (heap_waiting self.old rank) (Some key) ≡ false }
        ensures keys { self.new.keys.items ≡ slice_set self.old.keys.items rank (Some key) }
        ensures heaped { heap_ordered K.Key.leq self.old → heap_ordered K.Key.leq self.new }
    {
        self.keys[rank] = Some(key);
        let place = self.ranking.place_of(rank);
        self.sift_up(place);
    }

    // Adds a rank that does not wait.
    fn add(&mut self, rank: usize, key: K)
        requires rank { rank < heap_places self.old }
        requires none { heap_waiting self.old rank ≡ None }
        ensures keys { self.new.keys.items ≡ slice_set self.old.keys.items rank (Some key) }
        ensures heaped { heap_ordered K.Key.leq self.old → heap_ordered K.Key.leq self.new }
    {
        let end = self.count;
        let place = self.ranking.place_of(rank);
        self.ranking.exchange(place, end);
        self.keys[rank] = Some(key);
        self.count += 1;
        self.sift_up(end);
    }

    // Removes the first rank.
    fn remove_first(&mut self)
        requires { 0 < self.old.count }
        ensures keys { self.new.keys.items ≡ slice_set self.old.keys.items (slice_index self.old.ranking.order.items 0) None }
        ensures heaped { heap_ordered K.Key.leq self.old → heap_ordered K.Key.leq self.new }
    {
        let rank = self.ranking.at(0);
        self.count -= 1;
        self.ranking.exchange(0, self.count);
        self.keys[rank] = None;
        self.sift_down();
    }
}

impl<K: Key> WaitingList for Heap<K> {
    type Key = K;

    ghost places = { heap_places };

    ghost waiting = { heap_waiting };

    ghost ordered = { heap_ordered K.Key.leq };

    ghost within = { λ h q _ past. get_or_past _ q _ (subst (λ n. n ≤ q) h.keys.ok.0 past) };

    fn capacity(&self) -> usize {
        self.keys.len()
    }

    fn clear(&mut self) {
        self.keys.fill(None);
        self.count = 0;
    }

    fn put(&mut self, rank: usize, key: K) -> Result<(), PutRefusal> {
        match *self.keys.get(rank).ok_or(PutRefusal::NoPlace)? {
            Some(old) if old.at_most(key) => {}
            Some(_) => self.lower(rank, key),
            None => self.add(rank, key),
        }
        Ok(())
    }

    fn take(&mut self) -> Option<(usize, K)> {
        let first = self.first()?;
        self.remove_first();
        Some(first)
    }
}
