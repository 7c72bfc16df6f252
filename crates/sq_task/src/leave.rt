//! A leave of a message for a move task.

use sq_base::refusal::Refusal;
use sq_model::item::{ItemNo, TaskNo};
use sq_model::task::Task;

/// A leave for a move task, with what the ledger says of it.
#[derive(Drop)]
pub struct TaskLeave {
    /// The number of the task, as it was asked.
    pub number: TaskNo,
    /// The task, or why it takes no message of this home's queue.
    pub task: Result<Task, Refusal>,
    /// Whether its rate allows one at the stamp's moment.
    pub allowed: bool,
    /// The number of the next item, or why the ledger takes none in.
    pub item: Result<ItemNo, Refusal>,
}
