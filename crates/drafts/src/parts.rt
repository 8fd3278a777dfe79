// What a card said, as it was read. Names still borrow from the card.
ghost use Rattle.std.specs.Prelude.{◌≤◌, vec_len};

use fields::Field;
use sas::{Fact, Precondition};

#[derive(Clone, Copy)]
pub struct Variable<'a> {
    pub name: Field<'a>,
    pub size: u8,
    pub start: u8,
    pub goal: Option<u8>,
}

#[derive(Drop)]
pub struct DraftOperator<'a> {
    pub name: Field<'a>,
    pub cost: u16,
    pub preconditions: Vec<Precondition>,
    pub effects: Vec<Fact>,
}

// Each pattern is the numbers of its variables.
#[derive(Drop)]
pub struct Draft<'a> {
    pub variables: Vec<Variable<'a>>,
    pub operators: Vec<DraftOperator<'a>>,
    pub patterns: Vec<Vec<u8>>,
    pub ghost few_variables: { vec_len variables ≤ 16 },
}
