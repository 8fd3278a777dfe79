// A waiting list that notes what is taken.
#![tactic(auto)]

ghost use Rattle.std.specs.Prelude.{◌≡◌, Some};
ghost use Rattle.lists.specs.Waits.{Cleared, Put, Took};
ghost use Rattle.noting.specs.Notes.{Blank, Noted, Follows};
ghost use Rattle.std.proofs.Common.{rules};

use keys::Key;
use lists::{PutRefusal, WaitingList};
use std::alloc::Global;

// What was taken, complete until memory fails to note a pair. A flag, since the pairs are kept also where one is lost.
#[derive(Drop)]
struct Log<P: Copy> {
    pairs: Vec<P>,
    complete: bool,
}

impl<P: Copy> Log<P> {
    fn new(heap: Global) -> Log<P>
        ensures { Blank result }
    {
        Log {
            pairs: Vec::new(heap),
            complete: true,
        }
    }

    // Adds a pair to a complete log, which is complete no longer where there is no memory for it.
    fn note(&mut self, pair: P)
        ensures noted { Noted self.old (Some pair) self.new }
        ensures follows { Follows self.old (Some pair) self.new }
    {
        self.complete = self.complete && self.pairs.push(pair).is_ok();
    }

    fn restart(&mut self)
        ensures { Blank self.new }
    {
        self.pairs.clear();
        self.complete = true;
    }
}

// A list with the log of its takes.
#[derive(Drop)]
pub struct Noting<W: WaitingList> {
    inner: W,
    log: Log<(usize, W::Key)>,
}

impl<W: WaitingList> Noting<W> {
    pub fn new(heap: Global, inner: W) -> Noting<W>
        ensures inner { result.inner ≡ inner }
        ensures log { Blank result.log }
    {
        Noting {
            inner,
            log: Log::new(heap),
        }
    }

    // What was taken since the start or the last restart.
    pub fn noted(&self) -> &[(usize, W::Key)]
        ensures { result.now ≡ self.now.log.pairs.items }
    {
        self.log.pairs.as_slice()
    }

    // Whether no note was lost.
    pub fn complete(&self) -> bool
        ensures { result ≡ self.now.log.complete }
    {
        self.log.complete
    }

    // Forgets what was noted, and leaves the list as it is.
    pub fn restart(&mut self)
        ensures inner { self.new.inner ≡ self.old.inner }
        ensures log { Blank self.new.log }
    {
        self.log.restart();
    }
}

impl<W: WaitingList> WaitingList for Noting<W> {
    type Key = W::Key;

    ghost places = { λ s. W.places s.inner };

    ghost waiting = { λ s. W.waiting s.inner };

    ghost ordered = { λ s. W.ordered s.inner };

    ghost within = { Prim.search rules };

    fn capacity(&self) -> usize {
        self.inner.capacity()
    }

    fn clear(&mut self)
        ensures cleared { let list = ⟦<Noting<W> as WaitingList>⟧ in Cleared list.places list.waiting list.ordered self.old self.new }
        ensures log { self.new.log ≡ self.old.log }
    {
        self.inner.clear();
    }

    fn put(&mut self, rank: usize, key: W::Key) -> Result<(), PutRefusal>
        ensures put { let list = ⟦<Noting<W> as WaitingList>⟧ in list.ordered self.old → Put list.places list.waiting list.ordered W.Key.Key.leq self.old rank key result self.new }
        ensures log { self.new.log ≡ self.old.log }
    {
        self.inner.put(rank, key)
    }

    fn take(&mut self) -> Option<(usize, W::Key)>
        ensures took { let list = ⟦<Noting<W> as WaitingList>⟧ in list.ordered self.old → Took list.places list.waiting list.ordered W.Key.Key.leq self.old result self.new }
        ensures noted { Noted self.old.log result self.new.log }
        ensures follows { Follows self.old.log result self.new.log }
    {
        let pair = self.inner.take()?;
        self.log.note(pair);
        Some(pair)
    }
}
