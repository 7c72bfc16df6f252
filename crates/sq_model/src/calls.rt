//! What a home is asked.
use crate::held::Held;
use crate::item::{HeldItem, TaskNo};
use sq_base::body::Body;
use sq_base::ids::Serial;
use sq_base::ranges::{Delay, MaxMessages, Receives, Timeout};
use sq_base::settings::Settings;

/// One receive of a row at a home: what a receipt handle names there.
#[derive(Clone, Copy, PartialEq, Eq, Debug)]
pub struct Receipt {
    pub serial: Serial,
    pub slot: u32,
    pub receive: Receives,
}

/// The steps of a home, those that it shares with the ledger among them.
#[derive(PartialEq, Drop)]
pub enum HomeCall {
    /// Takes settings of this version, where it is above the home's own, and opens a home that was never opened.
    Configure(Held<Settings>, u64),
    /// Closes the home for good, and lets go of its messages.
    Close,
    /// Puts a message last; without a delay the home's is taken.
    Send(Body, Option<Delay>),
    /// Receives up to so many messages; without a timeout the home's is taken. It gives the rows, as they stand after
    /// it, or none at all where messages are live and too many are in flight.
    Look(MaxMessages, Option<Timeout>),
    /// Takes out the row on which slot, serial and receive number agree; where there is none it is done too.
    Delete(Receipt),
    /// Hides a message in flight for so many seconds from the stamp's moment on, and for no longer than 12 hours after
    /// its last receive; with 0 it is visible at once.
    Change(Receipt, Timeout),
    /// Takes out all messages, those in flight or delayed among them; serials go on.
    Purge,
    /// How many messages are visible, in flight and delayed.
    Count,
    /// The home takes no messages from now on; at one that drains, or is drained, it changes nothing. Own.
    StartDrain,
    /// Ends the drain of a home that holds no message. Own.
    FinishDrain,
    /// A dead message leaves for the dead-letter queue.
    LeaveDead,
    /// A message that is not in flight leaves a home that drains, for another home of its queue. Own.
    LeaveDrain,
    /// A message leaves for a move task.
    LeaveTask(TaskNo),
    /// A message comes in at its target.
    Enter(HeldItem),
    /// A message whose target is closed is sent back.
    TurnBack(HeldItem),
    /// A message that was sent back comes in at its source.
    GiveBack(HeldItem),
    /// A message that was sent back to a closed source is dropped.
    Drop(HeldItem),
}
