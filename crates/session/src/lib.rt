// A session over a task: rows of costs and bars, steps with tickets, wear, trials that put their row back, and checks of
// given steps.
#![tactic(auto)]

mod rows;
mod session;

pub use sas::Row;
pub use session::Session;
pub use session::calls::Call;
pub use session::check::CheckFault;
pub use session::refusal::Refusal;
pub use session::steps::{Returned, Ticket};
pub use session::theorems::{answers_agree, replays_agree};
pub use session::trial::Trial;
