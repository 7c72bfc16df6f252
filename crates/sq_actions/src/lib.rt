//! Calls of clients and turns, each done step by step over any steps that are done under one lock.
#![tactic(auto)]

mod batch;
pub mod client;
pub mod lock_steps;
mod message;
pub mod turns;
pub mod until;
pub mod walk;
