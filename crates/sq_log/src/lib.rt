//! The history of a part: its events in order, and which of them a record is of.
#![tactic(auto)]

pub mod blocks;
pub mod events;
pub mod growing;
pub mod log;
pub mod record;
