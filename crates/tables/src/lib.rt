// Pattern tables: the least cost from each projected state to the goal.
#![tactic(auto)]

mod building;
mod entries;
mod input;
mod look;
mod obeying;
mod refusal;
pub mod table;
mod weighted;

pub use building::build;
pub use entries::MARK;
pub use refusal::TableRefusal;
pub use table::Table;
