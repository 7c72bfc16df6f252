//! What lines ask: requests read from JSON.
#![tactic(auto)]

pub mod actions;
pub mod asked;
pub mod attributes;
pub mod batches;
pub mod members;
pub mod queues;
pub mod request;
pub mod tasks;
