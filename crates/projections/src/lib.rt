// A task seen through some of its variables, by the ranks of its states.
#![tactic(auto)]

mod axes;
mod axis;
mod moves;
mod pattern;
pub mod projection;

pub use projection::Projection;
