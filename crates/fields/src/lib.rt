// The text of a card: lines, fields, names and numbers.
#![tactic(auto)]

mod faults;
mod field;
mod lines;
mod pieces;
mod place;

pub use faults::{FieldFault, LineFault};
pub use field::{Field, name_field, number_field, number_or_dash};
pub use lines::{Record, ValueTexts, VariableTexts, cut_line};
pub use pieces::Pieces;
pub use place::Place;
