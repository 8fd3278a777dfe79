// The variables of a pattern, each once.
ghost use Rattle.std.specs.Prelude.{◌≡◌, ◌≤◌, [], vec_items};
ghost use Rattle.fields.specs.Cursor.{left};
ghost use Rattle.cards.specs.Reading.{indices_on, distinct_on};
ghost use Rattle.drafts.specs.Told.{TellsLine};

use crate::values::number_at;
use cards::CardFault;
use fields::{FieldFault, LineFault, Pieces, Place};
use std::alloc::Global;

// The numbers that the fields write, each below `n`.
// A loop: a chain that collects does not say that it fails where a field does.
pub(crate) fn indices<'a>(
    heap: Global,
    line: usize,
    n: u32,
    fields: Pieces<'a>,
) -> Result<Vec<u8>, CardFault>
    requires { n ≤ 16 }
    ensures { TellsLine vec_items result (indices_on line n [] (left fields.entry)) }
{
    let mut vs = Vec::new(heap);
    for text in fields {
        let place = Place {
            line,
            field: vs.len() + 2,
        };
        let v = number_at(text, place, 0, n)?;
        // A test bounds it: `try_from` would need an error that cannot come.
        vs.push(v as u8)?;
    }
    Ok(vs)
}

pub(crate) fn distinct(line: usize, vs: &[u8]) -> Result<(), LineFault>
    ensures { result ≡ distinct_on line [] vs.now }
{
    // By a loop: `find` through `enumerate` leaves both answers open, that for one found and that for none.
    for (i, v) in vs.iter().enumerate() {
        if vs[..i].contains(v) {
            let place = Place { line, field: i + 2 };
            return Err(LineFault::InField(FieldFault::Twice(place)));
        }
    }
    Ok(())
}
