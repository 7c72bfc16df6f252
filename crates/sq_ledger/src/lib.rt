//! The messages that left one queue and are not yet in another, and all that was done to them.
#![tactic(auto)]

pub mod events;
pub mod items;
pub mod ledger;
pub mod record;
pub mod task_calls;
pub mod tasks;
