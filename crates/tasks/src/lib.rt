// Tasks, which keep their rules by their type, and the cards that they are read from.
#![tactic(auto)]

pub mod card;
pub mod task;

pub use card::Card;
pub use task::{Operator, Task};
