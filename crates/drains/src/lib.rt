// What can be done with any waiting list, proved from what all lists promise.
#![tactic(auto)]

ghost use Rattle.std.specs.Prelude.{◌≡◌, MatchResult};
ghost use Rattle.drains.specs.Drained.{Drained};

use keys::Key;
use lists::WaitingList;
use std::alloc::{AllocError, Global};

// Takes all pairs, by ascending keys. The memory is found before the first is taken.
pub fn drain<W: WaitingList>(heap: Global, w: &mut W) -> Result<Vec<(usize, W::Key)>, AllocError>
    ensures { MatchResult result (λ out. W.ordered w.old → Drained W.places W.waiting W.ordered W.Key.Key.leq w.old out.items w.new) (λ _. w.new ≡ w.old) }
{
    let capacity = w.capacity();
    let mut out = Vec::with_capacity(heap, capacity)?;
    // By turns, since a list that is not in order may never run out.
    for _ in 0..capacity {
        let Some(pair) = w.take() else {
            return Ok(out);
        };
        out.push_reserved(pair);
    }
    Ok(out)
}
