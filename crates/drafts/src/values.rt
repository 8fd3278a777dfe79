// Names, numbers, variables and operators, from the texts of their fields.
ghost use Rattle.std.specs.Prelude.{◌≡◌, ◌<◌, ◌≤◌, IfOk};
ghost use Rattle.fields.specs.Fields.{plain, text_of, line_of};
ghost use Rattle.fields.specs.Lines.{map_ok};
ghost use Rattle.cards.specs.Reading.{name_at, number_at, goal_at, variable_of, operator_of};
ghost use Rattle.drafts.specs.View.{plain_var, placed};

use crate::parts::{DraftOperator, Variable};
use fields::{Field, LineFault, Place, VariableTexts, name_field, number_field, number_or_dash};
use std::alloc::Global;

fn name_at<'a>(text: &'a [u8], place: Place) -> Result<Field<'a>, LineFault>
    ensures named { map_ok (λ n. text_of (plain n)) result ≡ name_at place text.now }
    ensures lined { IfOk result (λ n. line_of (plain n) ≡ place.line) }
{
    Ok(name_field(text, place)?)
}

pub(crate) fn number_at(text: &[u8], place: Place, low: u32, end: u32) -> Result<u32, LineFault>
    ensures value { result ≡ number_at place low end text.now }
    ensures bounded { IfOk result (λ n. n < end) }
{
    let number = number_field(text, place)?;
    Ok(number.value(low, end)?)
}

fn goal_at(text: &[u8], place: Place, size: u32) -> Result<Option<u8>, LineFault>
    requires { size ≤ 16 }
    ensures { result ≡ goal_at place size text.now }
{
    match number_or_dash(text, place)? {
        Field::Dash { .. } => Ok(None),
        // A test bounds it: `try_from` would need an error that cannot come.
        number => Ok(Some(number.value(0, size)? as u8)),
    }
}

pub(crate) fn variable_of<'a>(
    line: usize,
    texts: VariableTexts<'a>,
) -> Result<Variable<'a>, LineFault>
    ensures { map_ok plain_var result ≡ variable_of line texts.entry.name.now texts.entry.size.now texts.entry.start.now texts.entry.goal.now }
{
    let name = name_at(texts.name, Place { line, field: 2 })?;
    let size = number_at(texts.size, Place { line, field: 3 }, 2, 17)?;
    let start = number_at(texts.start, Place { line, field: 4 }, 0, size)?;
    let goal = goal_at(texts.goal, Place { line, field: 5 }, size)?;
    Ok(Variable {
        name,
        size: size as u8,
        start: start as u8,
        goal,
    })
}

pub(crate) fn operator_of<'a>(
    heap: Global,
    line: usize,
    name: &'a [u8],
    cost: &'a [u8],
) -> Result<DraftOperator<'a>, LineFault>
    ensures { map_ok placed result ≡ operator_of line name.now cost.now }
{
    let name = name_at(name, Place { line, field: 2 })?;
    let cost = number_at(cost, Place { line, field: 3 }, 0, 65_536)?;
    Ok(DraftOperator {
        name,
        cost: cost as u16,
        preconditions: Vec::new(heap),
        effects: Vec::new(heap),
    })
}
