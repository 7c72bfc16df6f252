//! What the ledger of messages in transit is asked, and what it answers.
use crate::calls::HomeCall;
use crate::item::TaskNo;
use crate::listed::Listed;
use crate::replies::HomeReply;
use crate::task::{NamedQueue, Task};
use sq_base::ids::{HomeId, QueueNo};
use sq_base::ranges::{MaxResults, Rate};

/// The steps of the ledger that are recorded.
#[derive(PartialEq, Drop)]
pub enum LedgerCall {
    /// A step that it shares with this home.
    AtHome(HomeId, HomeCall),
    /// Starts a task (SQS API Reference, StartMessageMoveTask).
    StartTask(NamedQueue, Option<NamedQueue>, Option<Rate>),
    /// Cancels a running task (SQS API Reference, CancelMessageMoveTask).
    CancelTask(TaskNo),
    /// Lists the tasks of a source (SQS API Reference, ListMessageMoveTasks).
    ListTasks(QueueNo, MaxResults),
    /// Ends a task of which no message is in transit. Own.
    FinishTask(TaskNo),
}

/// The answers to these steps.
#[derive(PartialEq, Drop)]
pub enum LedgerReply {
    /// What the home answers.
    AtHome(HomeReply),
    Started(TaskNo),
    /// How many messages it had moved.
    Cancelled(u64),
    /// The most recent task comes first.
    Listed(Listed<Task>),
    Finished,
}
