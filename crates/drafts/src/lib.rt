// Reads a card into a draft: what its lines say, or the first fault.
#![tactic(auto)]

ghost use Rattle.fields.specs.Text.{pieces};
ghost use Rattle.cards.specs.Faults.{Tells};
ghost use Rattle.cards.specs.Reading.{read_on, nothing, reading};
ghost use Rattle.drafts.specs.View.{said};
ghost use Rattle.drafts.specs.Told.{TellsLine};

use cards::CardFault;
use fields::Pieces;
use std::alloc::Global;

mod parts;
mod patterns;
mod places;
mod records;
mod valued;
mod values;
mod whole;

pub use parts::{Draft, DraftOperator, Variable};

const MOST_BYTES: usize = 16_384;

fn read_lines<'a>(heap: Global, bytes: &'a [u8]) -> Result<Draft<'a>, CardFault>
    ensures { TellsLine said result (read_on 1 nothing (pieces 10 bytes.now)) }
{
    let mut draft = Draft {
        variables: Vec::new(heap),
        operators: Vec::new(heap),
        patterns: Vec::new(heap),
    };
    for (i, text) in Pieces::new(bytes, b'\n').enumerate() {
        draft.add_line(heap, i + 1, text)?;
    }
    Ok(draft)
}

// What a card of at most 16,384 bytes says, or its first fault.
pub fn draft<'a>(heap: Global, bytes: &'a [u8]) -> Result<Draft<'a>, CardFault>
    ensures { Tells said result (reading bytes.now) }
{
    if bytes.len() > MOST_BYTES {
        return Err(CardFault::TooLong);
    }
    let read = read_lines(heap, bytes)?;
    read.check()?;
    Ok(read)
}
