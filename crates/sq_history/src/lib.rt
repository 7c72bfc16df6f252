//! A home with its history.
#![tactic(auto)]

pub mod act;
pub mod events;
mod home_leave;
pub mod homes;
pub mod record;
pub mod recorded;
pub mod sent_body;
pub mod shared;
pub mod task_leave;
