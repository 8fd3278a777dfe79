// A card that was read: its task, and the draft that the task was made from.
use crate::task::Task;
use drafts::Draft;

mod built_in;
mod gathers;
mod names;
mod reader;
mod tells;

#[derive(Drop)]
pub struct Card<'a> {
    task: Task,
    draft: Draft<'a>,
}
