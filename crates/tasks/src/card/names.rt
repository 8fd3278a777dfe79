// The names on a card, as their parts of its text.
ghost use Rattle.std.specs.Prelude.{◌≡◌, ◌<◌, ◌≤◌, length, MatchOption, slice_index_or};
ghost use Rattle.cards.specs.Content.{no_oper, no_var};
ghost use Rattle.tasks.specs.Contents.{contents};

use super::Card;

impl<'a> Card<'a> {
    pub fn variable_name(&self, variable: usize) -> Option<&'a [u8]>
        ensures { MatchOption result (length (contents self.now).variables ≤ variable) (λ t. (variable < length (contents self.now).variables) × (t.now ≡ (slice_index_or (contents self.now).variables variable no_var).name)) }
    {
        self.draft.variables.get(variable).map(|v| v.name.text())
    }

    pub fn operator_name(&self, operator: usize) -> Option<&'a [u8]>
        ensures { MatchOption result (length (contents self.now).operators ≤ operator) (λ t. (operator < length (contents self.now).operators) × (t.now ≡ (slice_index_or (contents self.now).operators operator no_oper).name)) }
    {
        self.draft.operators.get(operator).map(|o| o.name.text())
    }
}
