// A waiting list: ranks below a capacity, each waiting under at most one key, taken by least key.
#![tactic(auto)]

ghost use Rattle.std.specs.Prelude.{◌≡◌, ℕ, ◌≤◌, None, Option};
ghost use Rattle.lists.specs.Refusals.{refusal_number};
ghost use Rattle.lists.specs.Waits.{Cleared, Put, Took};

use keys::Key;

// Why a put is refused.
#[derive(Clone, Copy)]
pub enum PutRefusal {
    // The rank is at or past the capacity.
    NoPlace,
}

impl PutRefusal {
    pub fn number(&self) -> u8
        ensures { result ≡ refusal_number self.now }
    {
        match self {
            PutRefusal::NoPlace => 17,
        }
    }
}

pub trait WaitingList {
    type Key: Key;

    // How many ranks there are.
    ghost places: { Self → ℕ };

    // The key under which a rank waits.
    ghost waiting: { Self → ℕ → Option Self.Key };

    // Whether the list is in order.
    ghost ordered: { Self → Type 0 };

    fn capacity(&self) -> usize
        ensures { result ≡ places self.now };

    // Empties the list, whatever it was.
    fn clear(&mut self)
        ensures { Cleared places waiting ordered self.old self.new };

    // Adds a rank, or lowers its key.
    fn put(&mut self, rank: usize, key: Self::Key) -> Result<(), PutRefusal>
        ensures { ordered self.old → Put places waiting ordered Self.Key.Key.leq self.old rank key result self.new };

    // Removes a rank of least key.
    fn take(&mut self) -> Option<(usize, Self::Key)>
        ensures { ordered self.old → Took places waiting ordered Self.Key.Key.leq self.old result self.new };

    ghost within: { (w : Self) (q : ℕ) → ordered w → places w ≤ q → waiting w q ≡ None };
}
