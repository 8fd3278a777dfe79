// A waiting list as a binary heap of ranks.
#![tactic(auto)]

mod ranking;
mod store;

pub use store::Heap;
