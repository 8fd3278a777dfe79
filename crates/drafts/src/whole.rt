// What is tested of a whole card.
ghost use Rattle.std.specs.Prelude.{◌≡◌, map, nat_le};
ghost use Rattle.fields.specs.Lines.{map_ok};
ghost use Rattle.sas.specs.Model.{product};
ghost use Rattle.cards.specs.Content.{sizes};
ghost use Rattle.cards.specs.Reading.{effective, whole};
ghost use Rattle.drafts.specs.View.{plain_var, placed, said};

use crate::parts::{Draft, DraftOperator, Variable};
use cards::CardFault;

const MOST_STATES: u32 = 1_048_576;

// Each operator has an effect.
fn check_effects<'a>(operators: &[DraftOperator<'a>]) -> Result<(), CardFault>
    ensures { result ≡ effective (map placed operators.now) }
{
    match operators.iter().find(|o| o.effects.is_empty()) {
        Some(o) => Err(CardFault::NoEffect {
            line: o.name.line(),
        }),
        None => Ok(()),
    }
}

fn few_states<'a>(variables: &[Variable<'a>]) -> bool
    ensures { result ≡ nat_le (product (sizes (map plain_var variables.now))) 1048576 }
{
    let states = variables
        .iter()
        .fold(1u32, |states, v| states.saturating_mul(u32::from(v.size)));
    states <= MOST_STATES
}

impl<'a> Draft<'a> {
    // A card has a variable, effects, and at most 1,048,576 states.
    pub(crate) fn check(&self) -> Result<(), CardFault>
        ensures { map_ok (λ _. said self.now) result ≡ whole (said self.now) }
    {
        if self.variables.is_empty() {
            return Err(CardFault::NoVariable);
        }
        check_effects(self.operators.as_slice())?;
        if few_states(self.variables.as_slice()) {
            Ok(())
        } else {
            Err(CardFault::TooManyStates)
        }
    }
}
