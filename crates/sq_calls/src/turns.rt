//! Turns: single steps of moving messages, as a script asks for them (own).
ghost use Rattle.std.specs.Prelude.{◌≡◌};

use sq_base::name::QueueName;
use sq_model::item::TaskNo;

/// One step of moving messages.
#[derive(Clone, Copy, PartialEq, Eq, Debug)]
pub enum Turn {
    /// A message that was received too often leaves this queue for its dead-letter queue.
    DeadTurn(QueueName),
    /// A message in transit comes in where it goes to: at its target, or at its source on its way back.
    EnterTurn,
    /// A message leaves its queue for this task, or the task is finished; without a task where the text is the handle of
    /// none.
    TaskTurn(Option<TaskNo>),
}

/// What came of a turn.
#[derive(Clone, Copy, PartialEq, Eq, Debug)]
pub enum Turned {
    /// A message left its queue and is in transit.
    Left,
    /// No message is to leave, or none is in transit; nothing moved.
    Nothing,
    /// A message in transit came in at its target.
    Entered,
    /// The target of a message in transit is closed: the message is on its way back to its source.
    Turned,
    /// A message on its way back came in at its source.
    Back,
    /// The source of a message on its way back is closed too: the message is dropped.
    Dropped,
    /// There is no room for the message in transit or where it would come in, or that home is not opened; nothing moved.
    Full,
    /// As many messages left for the task in this second as its rate allows; nothing moved.
    Throttled,
    /// The task failed: its source is closed, or a message has nowhere to go.
    Failed,
    /// The task is completed, or it is cancelled at last.
    Finished,
    /// Messages of the task are in transit: it is not finished yet.
    Waiting,
    /// The task was over before; nothing moved.
    Ended,
}
