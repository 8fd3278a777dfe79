// The kinds of keys by which a waiting list is ordered.
#![tactic(auto)]

ghost use Rattle.std.specs.Prelude.{◌≡◌, ◌⊎◌, Bool, true, ◌<◌};
ghost use Rattle.keys.specs.Orders.{by_number, by_pair};
ghost use Rattle.std.proofs.Common.{rules};

pub trait Key: Copy {
    // Whether the first stands no later than the second.
    ghost leq: { Self → Self → Bool };

    fn at_most(self, other: Self) -> bool
        ensures { result ≡ leq self other };

    ghost total: { (x y : Self) → (leq x y ≡ true) ⊎ (leq y x ≡ true) };

    ghost antisym: { (x y : Self) → leq x y ≡ true → leq y x ≡ true → x ≡ y };

    ghost trans: { (x y z : Self) → leq x y ≡ true → leq y z ≡ true → leq x z ≡ true };
}

#[derive(Clone, Copy, PartialEq, Eq, PartialOrd, Ord)]
pub struct Distance(pub u64);

// An impl for each kind of key: equal values of an `Ord` need not be the same, and the law `antisym` asks that they are.
impl Key for Distance {
    ghost leq = { by_number };

    ghost total = { Prim.search rules };

    ghost antisym = { Prim.search rules };

    ghost trans = { Prim.search rules };

    fn at_most(self, other: Distance) -> bool {
        self <= other
    }
}

// Pairs are compared by their sums, and by their heights where the sums are equal.
#[derive(Clone, Copy, PartialEq, Eq, PartialOrd, Ord)]
pub struct Pair {
    pub sum: u64,
    pub height: u64,
}

impl Key for Pair {
    ghost leq = { by_pair };

    ghost total = { Prim.search rules };

    ghost antisym = { Prim.search rules };

    ghost trans = { Prim.search rules };

    fn at_most(self, other: Pair) -> bool {
        self <= other
    }
}
