//! A message move task (SQS API Reference, StartMessageMoveTask).
use crate::item::TaskNo;
use sq_base::ids::QueueNo;
use sq_base::name::QueueName;
use sq_base::ranges::Rate;

/// A queue by its number, with the name that it had then.
#[derive(Clone, Copy, PartialEq, Eq, Debug)]
pub struct NamedQueue {
    pub number: QueueNo,
    pub name: QueueName,
}

/// Why a task failed (SQS API Reference, ListMessageMoveTasks; the last two are own).
#[derive(Clone, Copy, PartialEq, Eq, Debug)]
pub enum FailureReason {
    /// It has no destination, and a message has no queue that it came from.
    NoOrigin,
    /// A home of its source is closed.
    SourceClosed,
    /// A home of a message's destination is closed.
    DestinationClosed,
}

/// How far a task is (SQS API Reference, ListMessageMoveTasks).
#[derive(Clone, Copy, PartialEq, Eq, Debug)]
pub enum TaskStatus {
    /// It takes messages.
    Running,
    Completed,
    /// It takes no more, and waits for those that are in transit.
    Cancelling,
    Cancelled,
    Failed(FailureReason),
}

/// A task that moves messages out of a dead-letter queue, and what became of them. What left and is nowhere counted
/// below is in transit.
#[derive(Clone, Copy, PartialEq, Eq, Debug)]
pub struct Task {
    pub number: TaskNo,
    pub source: NamedQueue,
    /// Without one each message goes to the queue that it came from.
    pub destination: Option<NamedQueue>,
    /// How many messages it takes in a second, 1 to 500, where that was given; else 500.
    pub rate: Option<Rate>,
    /// The moment of its start, in ms.
    pub started: u64,
    pub status: TaskStatus,
    /// Messages that left the source.
    pub left: u64,
    /// Messages that came in at their destination.
    pub moved: u64,
    /// Messages that came back to the source.
    pub back: u64,
    /// Messages that were on their way back to a source that was closed.
    pub dropped: u64,
    /// The last second, of the steps' moments, in which one left.
    pub second: u64,
    /// How many left in that second.
    pub in_second: u32,
}
