// The keys of the ranks that wait, over the order of all ranks.
mod list;
mod sift;

ghost use Rattle.heap.specs.Rows.{Sound};

use crate::ranking::Ranking;

// The first `count` ranks of the ranking wait, as a heap of their keys. A count, as the ranks past it stay in the ranking: a
// put needs no memory.
#[derive(Drop)]
pub struct Heap<K> {
    keys: Vec<Option<K>>,
    ranking: Ranking,
    count: usize,
    ghost sound: { Sound keys.items ranking.order.items count },
}
