// Estimators, which bound the cost of every run to a goal from below; layers of them; and when a pile of them is sound.
#![tactic(auto)]

pub mod blind;
pub mod estimator;
pub mod higher;
pub mod soundness;
pub mod sum;

pub use blind::Blind;
pub use estimator::{Estimator, K};
pub use higher::HigherOf;
pub use soundness::{first_overcharged, is_sound};
pub use sum::SumOf;
