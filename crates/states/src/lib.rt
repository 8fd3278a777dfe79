// The states of a task: their ranks, the steps between them, and where the goal holds; and equality of tasks.
#![tactic(auto)]

pub mod counts;
pub mod equality;
pub mod ranks;
pub mod steps;

pub use counts::{operators, size, state_count, variables};
pub use equality::same;
pub use ranks::{StateRefusal, rank, state};
pub use steps::{applies, apply, is_goal, is_goal_rank, successor};
