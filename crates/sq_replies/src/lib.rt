//! The texts of replies.
#![tactic(auto)]

mod attributes;
mod batches;
mod queues;
pub mod reply;
mod tasks;
pub mod text;
mod turns;
pub mod worked;
mod writing;
