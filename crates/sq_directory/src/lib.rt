//! The queues of a service, and all that was done to them.
#![tactic(auto)]

pub mod attributes;
pub mod copies;
pub mod directory;
pub mod events;
pub mod listing;
pub mod prepared;
pub mod queues;
pub mod record;
pub mod stored;
