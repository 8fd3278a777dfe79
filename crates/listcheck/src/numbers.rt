// The numbers that choose what is put and taken, and keys made from them.
ghost use Rattle.std.specs.Prelude.{◌≡◌, ℕ, ◌<◌};
ghost use Rattle.listcheck.specs.Made.{distance_of, pair_of};

use keys::{Distance, Key, Pair};

// The same numbers on each run, by a linear congruential generator.
#[derive(Drop)]
pub(crate) struct Numbers {
    state: u64,
}

impl Numbers {
    pub(crate) fn new(seed: u64) -> Numbers
        ensures { result.state ≡ seed }
    {
        Numbers { state: seed }
    }

    // The next number, below a bound.
    pub(crate) fn below(&mut self, bound: u64) -> u64
        requires { 0 < bound }
        ensures { result < bound }
    {
        self.state = self
            .state
            .wrapping_mul(6364136223846793005)
            .wrapping_add(1442695040888963407);
        (self.state >> 33) % bound
    }
}

// A kind of key that is made from a number.
pub(crate) trait Numbered: Key {
    ghost made: { ℕ → Self };

    fn numbered(n: u64) -> Self
        ensures { result ≡ made n };
}

impl Numbered for Distance {
    ghost made = { distance_of };

    fn numbered(n: u64) -> Distance {
        Distance(n)
    }
}

impl Numbered for Pair {
    ghost made = { pair_of };

    fn numbered(n: u64) -> Pair {
        Pair {
            sum: n / 4,
            height: n % 4,
        }
    }
}
