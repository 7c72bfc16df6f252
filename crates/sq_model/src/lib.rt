//! The queue as relations between values: what its parts are asked, and what they may answer.
#![tactic(auto)]

pub mod calls;
pub mod directory;
pub mod event;
pub mod held;
pub mod home_mode;
pub mod item;
pub mod ledger;
pub mod listed;
pub mod options;
pub mod place;
pub mod policy;
pub mod replies;
pub mod rows;
pub mod shared;
pub mod task;
