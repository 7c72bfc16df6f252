//! What a home and the ledger are asked together.
use crate::item::{ItemNo, TaskNo};

/// A step of a home that it shares with the ledger, as it is asked: an item by its number, which the ledger knows.
#[derive(Clone, Copy, PartialEq, Eq, Debug)]
pub enum SharedAct {
    /// A dead message leaves for the dead-letter queue.
    LeaveDead,
    /// A message that is not in flight leaves a home that drains, for another home of its queue.
    LeaveDrain,
    /// A message leaves for a move task.
    LeaveTask(TaskNo),
    /// A message comes in at its target.
    Enter(ItemNo),
    /// A message whose target is closed is sent back.
    TurnBack(ItemNo),
    /// A message that was sent back comes in at its source.
    GiveBack(ItemNo),
    /// A message that was sent back to a closed source is dropped.
    Drop(ItemNo),
}

/// Which messages leave a home, where no task asks for them.
#[derive(Clone, Copy, PartialEq, Eq, Debug)]
pub enum HomeLeave {
    /// A dead one, for the dead-letter queue.
    Dead,
    /// One that is not in flight, of a home that drains.
    Drain,
}

/// What is done with a message in transit.
#[derive(Clone, Copy, PartialEq, Eq, Debug)]
pub enum ItemAct {
    /// It comes in at its target.
    Enter,
    /// It is sent back from its closed target.
    TurnBack,
    /// It comes back to its source.
    GiveBack,
    /// It is dropped at its closed source.
    Drop,
}
