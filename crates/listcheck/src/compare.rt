// Whether two runs gave the same keys.
ghost use Rattle.std.specs.Prelude.{◌≡◌, true};
ghost use Rattle.listcheck.specs.Same.{SameKeys};

use keys::Key;

// By the order, not by `==`: that the keys are the same is promised by the law of keys, which a bound `PartialEq` is not.
fn same_key<K: Key>(x: K, y: K) -> bool
    ensures { result ≡ true → x ≡ y }
{
    x.at_most(y) && y.at_most(x)
}

// The same keys in the same order, whatever their ranks.
pub(crate) fn same_keys<K: Key>(a: &[(usize, K)], b: &[(usize, K)]) -> bool
    ensures { result ≡ true → SameKeys a.now b.now }
{
    a.len() == b.len() && a.iter().zip(b).all(|(x, y)| same_key(x.1, y.1))
}
