//! What an actor does in one step, and its outcome.
ghost use Rattle.std.specs.Prelude.{◌≡◌, Some};

use sq_base::ids::{HomeId, HomeNo, QueueNo};
use sq_base::name::QueueName;
use sq_base::ranges::MaxResults;
pub use sq_history::act::HomeAct;
pub use sq_ledger::task_calls::TaskStart;
use sq_model::directory::{DirectoryCall, DirectoryReply};
use sq_model::item::{ItemNo, TaskNo};
use sq_model::ledger::LedgerReply;
use sq_model::listed::Listed;
use sq_model::replies::HomeReply;
pub use sq_model::shared::SharedAct;
use sq_model::task::{NamedQueue, Task};

/// What the ledger does with tasks by itself.
#[derive(Clone, Copy, PartialEq, Eq, Debug)]
pub enum TaskAct {
    Start(TaskStart),
    Cancel(TaskNo),
    /// Lists the tasks of a source, so many at most.
    List(QueueNo, MaxResults),
    Finish(TaskNo),
}

/// A home, and the name of its queue that was used, if any.
#[derive(Clone, Copy)]
pub struct NamedHome {
    pub name: Option<QueueName>,
    pub id: HomeId,
}

impl NamedHome {
    /// A home of a queue that was found by its name.
    pub fn found(queue: &NamedQueue, home: HomeNo) -> NamedHome
        ensures { result ≡ record { name = Some queue.now.name; id = record { queue = queue.now.number; home = home } } }
    {
        let id = HomeId {
            queue: queue.number,
            home,
        };
        NamedHome {
            name: Some(queue.name),
            id,
        }
    }
}

/// Where the next item in transit goes.
#[derive(Clone, Copy, PartialEq, Eq, Debug)]
pub struct NextItem {
    pub number: ItemNo,
    pub source: QueueNo,
    pub target: QueueNo,
    pub homeward: bool,
}

/// What an actor does in one step.
#[derive(Drop)]
pub enum Act {
    Directory(DirectoryCall),
    /// Reads the number of a queue; it is no event.
    Resolve(QueueName),
    /// Reads the names and numbers of all queues; it is no event.
    Names,
    /// Reads between which queues a task may move messages: the source, and the destination if any; it is no event.
    CanRedrive(QueueName, Option<QueueName>),
    Home(HomeId, HomeAct),
    /// A step that this home shares with the ledger.
    Shared(HomeId, SharedAct),
    /// A step of the ledger alone.
    Ledger(TaskAct),
    /// Reads which item in transit comes after a number, the first again after the last; it is no event.
    Peek(u64),
    /// Reads the task of a number; it is no event.
    ReadTask(TaskNo),
    /// Reads the most recent task of a source; it is no event.
    LastTask(QueueNo),
}

/// Who does what, at a clock reading in ms.
#[derive(Drop)]
pub struct Step {
    pub actor: u32,
    pub clock: u64,
    pub act: Act,
}

/// What a step tells.
#[derive(Drop)]
pub enum Outcome {
    Directory(DirectoryReply),
    /// The number of the queue.
    Resolved(QueueNo),
    /// All queues, in order of creation.
    Named(Listed<NamedQueue>),
    /// The source of a task that may be started, and its destination, where one was given.
    Redriven(NamedQueue, Option<NamedQueue>),
    Home(HomeReply),
    /// Nothing was there to leave; it is no event.
    Nothing,
    Ledger(LedgerReply),
    /// The next item in transit, where there is any.
    Peeked(Option<NextItem>),
    /// The task of a number.
    Task(Task),
    /// The most recent task of a source, where there is any.
    LastTask(Option<Task>),
}
