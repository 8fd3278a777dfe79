// How a rank moves up or down the heap until it stands in order.
ghost use Rattle.std.specs.Prelude.{◌≡◌, ℕ, ◌+◌, ◌*◌, ◌<◌, slice_index};
ghost use Rattle.heap.specs.Rows.{up, Under, UpTo, DownTo};
ghost use Rattle.heap.specs.Means.{heap_before, heap_ordered};

use crate::store::Heap;
use keys::Key;

impl<K: Key> Heap<K> {
    // Whether the key at the place `i` is at most that at `j`.
    fn at_most(&self, i: usize, j: usize) -> bool
        requires i { i < self.now.count }
        requires j { j < self.now.count }
        ensures { result ≡ heap_before K.Key.leq self.now (slice_index self.now.ranking.order.items i) (slice_index self.now.ranking.order.items j) }
    {
        let Some(x) = self.keys[self.ranking.at(i)] else {
            return true;
        };
        self.keys[self.ranking.at(j)].is_some_and(|y| x.at_most(y))
    }

    // The child of the place `i` whose rank has the lower key.
    fn lower_child(&self, i: usize) -> usize
        requires { 2 * i + 1 < self.now.count }
        ensures child { up result ≡ i }
        ensures after { i < result }
        ensures within { result < self.now.count }
        ensures least { (j : ℕ) → 0 < j → j < self.now.count → up j ≡ i → Under (heap_before K.Key.leq self.now) self.now.ranking.order.items self.now.count result j }
    {
        let left = 2 * i + 1;
        let right = left + 1;
        if right < self.count && !self.at_most(left, right) {
            right
        } else {
            left
        }
    }

    // Moves the rank at a place up, past each rank of a higher key.
    pub(super) fn sift_up(&mut self, start: usize)
        requires { start < self.old.count }
        ensures keys { self.new.keys ≡ self.old.keys }
        ensures heaped { UpTo (heap_before K.Key.leq self.old) self.old.ranking.order.items self.old.count start → heap_ordered K.Key.leq self.new }
    {
        let mut place = start;
        while place > 0 {
            let parent = (place - 1) / 2;
            if self.at_most(parent, place) {
                return;
            }
            self.ranking.exchange(parent, place);
            place = parent;
        }
    }

    // Moves the first rank down, past each child of a lower key.
    pub(super) fn sift_down(&mut self)
        ensures keys { self.new.keys ≡ self.old.keys }
        ensures heaped { DownTo (heap_before K.Key.leq self.old) self.old.ranking.order.items self.old.count 0 → heap_ordered K.Key.leq self.new }
    {
        let mut place = 0;
        while place < self.count / 2 {
            let child = self.lower_child(place);
            if self.at_most(place, child) {
                return;
            }
            self.ranking.exchange(place, child);
            place = child;
        }
    }
}
