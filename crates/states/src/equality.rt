// Equality of tasks, as sets.
ghost use Rattle.std.specs.Prelude.{◌≡◌, true, map, Decides};
ghost use Rattle.sas.specs.Same.{Alike, Same, SameAction, SameSet};
ghost use Rattle.states.specs.Sets.{Exact, SameActions};
ghost use Rattle.std.specs.List.{ContainsAt};
ghost use Rattle.tasks.specs.Parts.{action};
ghost use Rattle.tasks.specs.View.{model_of};

use tasks::{Operator, Task};

// Whether the second has each element of the first.
fn included<T: PartialEq>(a: &[T], b: &[T]) -> bool
    ensures { Exact (λ x y r. r ≡ T.eq x y) → Decides result ((x : T) → ContainsAt a.now x → ContainsAt b.now x) }
{
    a.iter().all(|x| b.contains(x))
}

fn same_set<T: PartialEq>(a: &[T], b: &[T]) -> bool
    ensures { Exact (λ x y r. r ≡ T.eq x y) → Decides result (SameSet a.now b.now) }
{
    included(a, b) && included(b, a)
}

fn same_operator(a: &Operator, b: &Operator) -> bool
    ensures { Decides result (SameAction (action a.now) (action b.now)) }
{
    same_set(a.preconditions(), b.preconditions()) && same_set(a.effects(), b.effects())
}

fn same_operators(a: &[Operator], b: &[Operator]) -> bool
    ensures { Decides result (SameActions (map action a.now) (map action b.now)) }
{
    a.len() == b.len() && a.iter().zip(b).all(|(x, y)| same_operator(x, y))
}

// Whether two tasks are equal: the same sizes in order, the same goal as a set, and operators in the same order with the
// same preconditions and effects as sets.
pub fn same(a: &Task, b: &Task) -> bool
    ensures decides { Decides result (Same (model_of a.now) (model_of b.now)) }
    ensures alike { result ≡ true → Alike (model_of a.now) (model_of b.now) × Alike (model_of b.now) (model_of a.now) }
{
    a.sizes() == b.sizes()
        && same_set(a.goal(), b.goal())
        && same_operators(a.operators(), b.operators())
}
