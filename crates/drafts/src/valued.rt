// Preconditions and effects: each gives a value to a variable, and an operator has at most 8, no variable twice.
ghost use Rattle.std.specs.Prelude.{◌≡◌, ℕ, List, map};
ghost use Rattle.cards.specs.Reading.{Placed, valued_of, member, add_valued, make_precondition, make_fact};
ghost use Rattle.drafts.specs.View.{placed, said};
ghost use Rattle.drafts.specs.Parts.{add_to, with_preconditions, with_effects};
ghost use Rattle.drafts.specs.Told.{GivesLine};

use crate::parts::{Draft, DraftOperator};
use crate::values::number_at;
use cards::CardFault;
use fields::{FieldFault, LineFault, Place, ValueTexts};
use sas::{Fact, Precondition};

// Of each kind, for one operator.
const MOST_PARTS: usize = 8;

// Two types by a rule of `sas`; each impl hands on its own list of the operator, since one that lent the list would owe a clause on what is lent back.
pub(crate) trait Valued: Copy {
    ghost of: { Self → ℕ };

    ghost make: { ℕ × ℕ → Self };

    fn new(variable: u8, value: u8) -> Self
        ensures { result ≡ make (variable, value) };

    fn variable(&self) -> u8
        ensures { result ≡ of self.now };
}

// A part of an operator.
pub(crate) trait Part: Valued {
    // Those that an operator has, and the operator with others.
    ghost parts: { Placed → List Self };

    ghost with_parts: { Placed → List Self → Placed };

    // One more for the operator.
    fn add_to<'a>(
        operator: &mut DraftOperator<'a>,
        draft: &Draft<'a>,
        line: usize,
        texts: ValueTexts<'a>,
    ) -> Result<(), CardFault>
        ensures { GivesLine result (placed operator.new) (add_to Self.of Self.make parts with_parts line (said draft.now).vars texts.entry.variable.now texts.entry.value.now (placed operator.old)) };
}

impl Valued for Precondition {
    ghost of = { λ p. p.variable };

    ghost make = { make_precondition };

    fn new(variable: u8, value: u8) -> Precondition {
        Precondition { variable, value }
    }

    fn variable(&self) -> u8 {
        self.variable
    }
}

impl Part for Precondition {
    ghost parts = { λ o. o.oper.preconditions };

    ghost with_parts = { with_preconditions };

    fn add_to<'a>(
        operator: &mut DraftOperator<'a>,
        draft: &Draft<'a>,
        line: usize,
        texts: ValueTexts<'a>,
    ) -> Result<(), CardFault> {
        add_valued(draft, line, &mut operator.preconditions, texts)
    }
}

impl Valued for Fact {
    ghost of = { λ f. f.variable };

    ghost make = { make_fact };

    fn new(variable: u8, value: u8) -> Fact {
        Fact { variable, value }
    }

    fn variable(&self) -> u8 {
        self.variable
    }
}

impl Part for Fact {
    ghost parts = { λ o. o.oper.effects };

    ghost with_parts = { with_effects };

    fn add_to<'a>(
        operator: &mut DraftOperator<'a>,
        draft: &Draft<'a>,
        line: usize,
        texts: ValueTexts<'a>,
    ) -> Result<(), CardFault> {
        add_valued(draft, line, &mut operator.effects, texts)
    }
}

// A variable and one of its values.
fn valued_of<'a>(
    draft: &Draft<'a>,
    line: usize,
    texts: ValueTexts<'a>,
) -> Result<(u8, u8), LineFault>
    ensures { result ≡ valued_of line (said draft.now).vars texts.entry.variable.now texts.entry.value.now }
{
    let variables = draft.variables.as_slice();
    let place = Place { line, field: 2 };
    let v = number_at(texts.variable, place, 0, variables.len() as u32)?;
    let size = variables[v as usize].size;
    let place = Place { line, field: 3 };
    let x = number_at(texts.value, place, 0, u32::from(size))?;
    // A test bounds each: `try_from` would need an error that cannot come.
    Ok((v as u8, x as u8))
}

fn has<T: Valued>(parts: &[T], v: u8) -> bool
    ensures { result ≡ member v (map T.Valued.of parts.now) }
{
    parts.iter().any(|p| p.variable() == v)
}

fn add_valued<'a, T: Valued>(
    draft: &Draft<'a>,
    line: usize,
    parts: &mut Vec<T>,
    texts: ValueTexts<'a>,
) -> Result<(), CardFault>
    ensures { GivesLine result parts.new.items (add_valued T.Valued.of T.Valued.make line (said draft.now).vars texts.entry.variable.now texts.entry.value.now parts.old.items) }
{
    if parts.len() >= MOST_PARTS {
        return Err(CardFault::InLine(LineFault::Many { line }));
    }
    let (v, x) = valued_of(draft, line, texts)?;
    if has(parts.as_slice(), v) {
        let place = Place { line, field: 2 };
        return Err(CardFault::InLine(LineFault::InField(FieldFault::Twice(place))));
    }
    parts.push(T::new(v, x))?;
    Ok(())
}
