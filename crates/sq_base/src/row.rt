//! A message in a home.
use crate::body::Body;
use crate::ids::{QueueNo, Serial};
use crate::message_id::MessageId;

/// Moments are in ms.
#[derive(PartialEq, Drop)]
pub struct Row {
    pub id: MessageId,
    /// The id of the first send.
    pub lineage: MessageId,
    pub body: Body,
    /// Given by the home that holds the row, from 0 upwards and never twice.
    pub serial: Serial,
    pub slot: u32,
    /// The receive number: how often it was received, as its home counts, and before it a home that was drained.
    pub receives: u32,
    pub enqueued: u64,
    pub visible_from: u64,
    /// The moment of the last receive, none where there was none.
    pub last_receive: Option<u64>,
    /// The queue that it came from as a dead letter.
    pub origin: Option<QueueNo>,
}
