// A session: what it holds, and what always holds of it. It borrows nothing.
ghost use Rattle.std.specs.Prelude.{◌≡◌, ◌≤◌, length};
ghost use Rattle.sas.specs.States.{State};
ghost use Rattle.session.specs.Rows.{table};
ghost use Rattle.session.specs.Sound.{Known, Ready};
ghost use Rattle.tasks.specs.View.{model_of};

use crate::rows::Rows;
use tasks::Task;

pub mod calls;
pub mod changes;
pub mod check;
pub mod conditions;
pub mod open;
pub mod refusal;
pub mod steps;
pub mod theorems;
pub mod trial;

#[derive(Drop)]
pub struct Session {
    task: Task,
    state: Vec<u8>,
    rows: Rows,
    step: Option<usize>,
    wear: u64,
    ghost sound: { State (model_of task).sizes state.items },
    ghost even: { length (table rows) ≡ length (model_of task).operators },
    ghost known: { Known step (length (table rows)) },
    ghost ready: { ∥ Ready step (model_of task) state.items ∥₁ },
    ghost bounded: { wear ≤ 1099511627776 },
}
