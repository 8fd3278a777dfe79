// A field of a line, by what stands there.
ghost use Rattle.std.specs.Prelude.{◌≡◌, ◌-◌, ◌<◌, is_some, IfOk, if◌then◌else◌, Some, None};
ghost use Rattle.fields.specs.Text.{between, is_name, numeral};
ghost use Rattle.fields.specs.Within.{within};
ghost use Rattle.fields.specs.Fields.{plain, text_of, line_of, name_field, number_field, number_or_dash, value_in};
ghost use Rattle.fields.specs.Lines.{map_ok};

use crate::faults::FieldFault;
use crate::place::Place;

// A name, a number or a dash, each handed on as its part of the text. These three cases are a rule of the project.
#[derive(Clone, Copy)]
pub enum Field<'a> {
    Name { text: &'a [u8], place: Place },
    Number { digits: &'a [u8], place: Place },
    Dash { place: Place },
}

impl<'a> Field<'a> {
    // The value of a number from `low` to below `end`.
    pub fn value(&self, low: u32, end: u32) -> Result<u32, FieldFault>
        ensures value { result ≡ value_in low end (plain self.now) }
        ensures bounded { IfOk result (λ v. v < end) }
    {
        match *self {
            Field::Number { digits, place } => number(digits, end)
                .filter(|n| (low..end).contains(n))
                .ok_or(FieldFault::NoNumber(place)),
            Field::Name { place, .. } | Field::Dash { place } => Err(FieldFault::NoNumber(place)),
        }
    }

    // The bytes of a name or a number; of a dash none.
    pub fn text(&self) -> &'a [u8]
        ensures { result.now ≡ text_of (plain self.now) }
    {
        match *self {
            Field::Name { text, .. } | Field::Number { digits: text, .. } => text,
            Field::Dash { .. } => &[],
        }
    }

    pub fn line(&self) -> usize
        ensures { result ≡ line_of (plain self.now) }
    {
        match *self {
            Field::Name { place, .. } | Field::Number { place, .. } | Field::Dash { place } => {
                place.line
            }
        }
    }
}

pub fn name_field<'a>(text: &'a [u8], place: Place) -> Result<Field<'a>, FieldFault>
    ensures { map_ok plain result ≡ name_field place text.now }
{
    if is_name(text) {
        Ok(Field::Name { text, place })
    } else {
        Err(FieldFault::NoName(place))
    }
}

pub fn number_field<'a>(text: &'a [u8], place: Place) -> Result<Field<'a>, FieldFault>
    ensures { map_ok plain result ≡ number_field place text.now }
{
    if is_numeral(text) {
        Ok(Field::Number {
            digits: text,
            place,
        })
    } else {
        Err(FieldFault::NoNumber(place))
    }
}

pub fn number_or_dash<'a>(text: &'a [u8], place: Place) -> Result<Field<'a>, FieldFault>
    ensures { map_ok plain result ≡ number_or_dash place text.now }
{
    match text {
        [b'-'] => Ok(Field::Dash { place }),
        _ => number_field(text, place),
    }
}

fn is_name(text: &[u8]) -> bool
    ensures { result ≡ is_name text.now }
{
    (1..=16).contains(&text.len()) && text.iter().all(|b| b.is_ascii_graphic())
}

fn digit(b: u8) -> Option<u8>
    ensures { result ≡ (if between 48 57 b then Some (b - 48) else None) }
{
    b.is_ascii_digit().then(|| b - b'0')
}

// Whether `text` is a decimal numeral, however long.
fn is_numeral(text: &[u8]) -> bool
    ensures { result ≡ is_some (numeral text.now) }
{
    if text.is_empty() || text.len() > 1 && text[0] == b'0' {
        return false;
    }
    text.iter().all(|b| b.is_ascii_digit())
}

// The number that `text` writes, if it is a decimal numeral of at most `limit`. By a loop: the library's parsers take a text
// and a sign, and tell no limit.
fn number(text: &[u8], limit: u32) -> Option<u32>
    ensures { result ≡ within limit (numeral text.now) }
{
    if !is_numeral(text) {
        return None;
    }
    let mut n: u64 = 0;
    for b in text {
        n = 10 * n + u64::from(digit(*b)?);
        if n > u64::from(limit) {
            return None;
        }
    }
    // The limit bounds it: `try_from` would need an error that cannot come.
    Some(n as u32)
}
