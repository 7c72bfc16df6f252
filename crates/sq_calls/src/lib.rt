//! What clients ask and are answered, as values.
#![tactic(auto)]

pub mod batches;
pub mod body_text;
pub mod calls;
pub mod digest;
pub mod received_messages;
pub mod task_handle;
pub mod turns;
