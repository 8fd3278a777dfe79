// Planning tasks as SAS+ has them, with operator costs: the parts that a task is made of, and the theorems about
// states, steps and ranks that everything above rests on.
#![tactic(auto)]

pub mod theorems;

// What an operator asks of a state. It is no `Fact`, so that what is asked is never taken for what is set.
#[derive(Clone, Copy, PartialEq, Eq)]
pub struct Precondition {
    pub variable: u8,
    // What the variable has to be.
    pub value: u8,
}

// A variable with a value: an effect of an operator, or a part of the goal.
#[derive(Clone, Copy, PartialEq, Eq)]
pub struct Fact {
    // Its number, from 0.
    pub variable: u8,
    pub value: u8,
}

// What an operator costs at present, and whether it is barred. A bar beside the cost, by a rule of the project: a barred row
// keeps its cost.
#[derive(Clone, Copy)]
pub struct Row {
    pub cost: u16,
    pub barred: bool,
}
