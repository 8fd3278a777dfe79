// A line, cut into the texts of its record's fields.
ghost use Rattle.std.specs.Prelude.{◌≡◌, ℕ, List, [], ◌∷◌, Some};
ghost use Rattle.fields.specs.Text.{tidy_byte, tidy};
ghost use Rattle.fields.specs.Cursor.{left};
ghost use Rattle.fields.specs.Lines.{Cut, plain_some, map_ok, four, two, some, by_letter, skipped, cut_line};

use crate::faults::LineFault;
use crate::pieces::Pieces;

#[derive(Clone, Copy)]
pub struct VariableTexts<'a> {
    pub name: &'a [u8],
    pub size: &'a [u8],
    pub start: &'a [u8],
    pub goal: &'a [u8],
}

// A variable and one of its values.
#[derive(Clone, Copy)]
pub struct ValueTexts<'a> {
    pub variable: &'a [u8],
    pub value: &'a [u8],
}

#[derive(Clone, Copy)]
pub enum Record<'a> {
    Variable(VariableTexts<'a>),
    Operator { name: &'a [u8], cost: &'a [u8] },
    Precondition(ValueTexts<'a>),
    Effect(ValueTexts<'a>),
    Pattern { variables: Pieces<'a> },
}

// The record that stands on a line, or nothing.
// The line goes along from here: each fault says where it stands, and is kept whole as it is handed up.
pub fn cut_line<'a>(line: usize, text: &'a [u8]) -> Result<Option<Record<'a>>, LineFault>
    ensures { map_ok plain_some result ≡ cut_line line text.now }
{
    if !is_tidy(text) {
        return Err(LineFault::Bytes { line });
    }
    if is_skipped(text) {
        return Ok(None);
    }
    let mut fields = Pieces::new(text, b'\t');
    match fields.next() {
        Some([letter]) => by_letter(line, char::from(*letter), fields),
        _ => Err(LineFault::Shape { line }),
    }
}

fn tidy_byte(b: u8) -> bool
    ensures { result ≡ tidy_byte b }
{
    matches!(b, b'\t' | b' '..=b'~')
}

fn is_tidy(text: &[u8]) -> bool
    ensures { result ≡ tidy text.now }
{
    text.len() <= 200 && text.iter().all(|b| tidy_byte(*b))
}

fn is_skipped(text: &[u8]) -> bool
    ensures { result ≡ skipped text.now }
{
    matches!(text, [] | [b'#', ..])
}

// A match over char literals, by a rule of the project.
fn by_letter<'a>(
    line: usize,
    letter: char,
    fields: Pieces<'a>,
) -> Result<Option<Record<'a>>, LineFault>
    ensures { map_ok plain_some result ≡ by_letter line (letter ∷ []) (left fields.entry) }
{
    match letter {
        'V' => four_fields(line, fields),
        'O' => {
            let (name, cost) = two_fields(line, fields)?;
            Ok(Some(Record::Operator { name, cost }))
        }
        'R' => {
            let (variable, value) = two_fields(line, fields)?;
            Ok(Some(Record::Precondition(ValueTexts { variable, value })))
        }
        'E' => {
            let (variable, value) = two_fields(line, fields)?;
            Ok(Some(Record::Effect(ValueTexts { variable, value })))
        }
        'T' => some_fields(line, fields),
        _ => Err(LineFault::Shape { line }),
    }
}

// Two functions, not one over a count: an array of texts that a loop fills gets no proof.
fn four_fields<'a>(line: usize, mut fields: Pieces<'a>) -> Result<Option<Record<'a>>, LineFault>
    ensures { map_ok plain_some result ≡ four line (left fields.entry) }
{
    match (
        fields.next(),
        fields.next(),
        fields.next(),
        fields.next(),
        fields.next(),
    ) {
        (Some(name), Some(size), Some(start), Some(goal), None) => {
            Ok(Some(Record::Variable(VariableTexts {
                name,
                size,
                start,
                goal,
            })))
        }
        _ => Err(LineFault::Shape { line }),
    }
}

fn two_fields<'a>(line: usize, mut fields: Pieces<'a>) -> Result<(&'a [u8], &'a [u8]), LineFault>
    ensures { (make : List ℕ → List ℕ → Cut) → map_ok (λ t. Some (make t.0.now t.1.now)) result ≡ two make line (left fields.entry) }
{
    match (fields.next(), fields.next(), fields.next()) {
        (Some(a), Some(b), None) => Ok((a, b)),
        _ => Err(LineFault::Shape { line }),
    }
}

fn some_fields<'a>(line: usize, fields: Pieces<'a>) -> Result<Option<Record<'a>>, LineFault>
    ensures { map_ok plain_some result ≡ some line (left fields.entry) }
{
    let mut ahead = fields;
    match ahead.next() {
        None => Err(LineFault::Shape { line }),
        Some(_) => Ok(Some(Record::Pattern { variables: fields })),
    }
}
