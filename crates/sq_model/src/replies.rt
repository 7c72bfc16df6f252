//! What a home answers, with all that its step chose.
use crate::item::HeldItem;
use crate::rows::Rows;
use sq_base::ids::Serial;
use sq_base::message_id::MessageId;

/// A message that was sent: its id, and the slot that it was given.
#[derive(Clone, Copy, PartialEq, Eq, Debug)]
pub struct SentMessage {
    pub id: MessageId,
    pub slot: u32,
}

/// What a row was given that came in: its serial at its new home, and its slot.
#[derive(Clone, Copy, PartialEq, Eq, Debug)]
pub struct EnteredRow {
    pub serial: Serial,
    pub slot: u32,
}

/// How many rows are in which state.
#[derive(Clone, Copy, PartialEq, Eq, Debug)]
pub struct Counts {
    pub visible: u32,
    pub in_flight: u32,
    pub delayed: u32,
}

/// The answers to the steps of a home that are recorded.
#[derive(PartialEq, Drop)]
pub enum HomeReply {
    /// It was done, and there is nothing to tell.
    Done,
    Sent(SentMessage),
    /// The rows that were received, as they stand now.
    Looked(Rows),
    /// Messages are live, and none may be received, since too many are in flight.
    Over,
    Counted(Counts),
    /// The row that left, as an item.
    Left(HeldItem),
    /// No live row is there for a move task.
    NoLiveRow,
    /// The live row of this serial has no origin to go back to.
    NoOrigin(Serial),
    /// The home is closed to a move task.
    SourceClosed,
    /// The row of an item came in.
    Entered(EnteredRow),
}
