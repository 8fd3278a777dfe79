// The order of the ranks, and where each stands in it.
ghost use Rattle.std.specs.Prelude.{◌≡◌, ◌<◌, IfOk, IfSome, length, slice_index, None};
ghost use Rattle.std.specs.List.{range_with_len, SwappedAt};
ghost use Rattle.heap.specs.Rows.{Inverse};

use std::alloc::{AllocError, Global};

// The numbers below a bound, in their order.
fn counted(heap: Global, bound: usize) -> Result<Vec<usize>, AllocError>
    ensures { IfOk result (λ v. v.items ≡ range_with_len 0 bound) }
{
    (0..bound).collect(heap)
}

// `order` has each rank below its length once, and `spots` says where.
// Two vectors beside the keys: each is the other's inverse, so that a put finds its place without search or memory.
#[derive(Drop)]
pub(crate) struct Ranking {
    order: Vec<usize>,
    spots: Vec<usize>,
    ghost inverse: { Inverse order.items spots.items },
}

impl Ranking {
    // Each rank below a capacity, at the place of its number.
    pub(crate) fn new(heap: Global, capacity: usize) -> Result<Ranking, AllocError>
        ensures { IfOk result (λ r. length r.order.items ≡ capacity) }
    {
        let order = counted(heap, capacity)?;
        let spots = counted(heap, capacity)?;
        Ok(Ranking { order, spots })
    }

    // The rank at a place.
    pub(crate) fn at(&self, place: usize) -> usize
        requires { place < length self.now.order.items }
        ensures { result ≡ slice_index self.now.order.items place }
    {
        self.order[place]
    }

    // The rank at the first place, if there is any.
    pub(crate) fn first(&self) -> Option<usize>
        ensures some { IfSome result (λ rank. (0 < length self.now.order.items) × (rank ≡ slice_index self.now.order.items 0)) }
        ensures none { result ≡ None → length self.now.order.items ≡ 0 }
    {
        self.order.first().copied()
    }

    // The place of a rank.
    pub(crate) fn place_of(&self, rank: usize) -> usize
        requires { rank < length self.now.order.items }
        ensures within { result < length self.now.order.items }
        ensures there { slice_index self.now.order.items result ≡ rank }
    {
        self.spots[rank]
    }

    // Exchanges what stands at two places.
    pub(crate) fn exchange(&mut self, i: usize, j: usize)
        requires i { i < length self.old.order.items }
        requires j { j < length self.old.order.items }
        ensures order { SwappedAt self.old.order.items self.new.order.items i j }
        ensures len { length self.new.order.items ≡ length self.old.order.items }
    {
        // By four writes: a slice's swap reads anew and compares what is known here.
        let (a, b) = (self.order[i], self.order[j]);
        self.order[i] = b;
        self.order[j] = a;
        self.spots[b] = i;
        self.spots[a] = j;
    }
}
