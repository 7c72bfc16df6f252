//! What actors do, one step after another, and what they keep of it.
#![tactic(auto)]

pub mod act;
pub mod capacity;
pub mod journal;
pub mod journals;
mod names;
pub mod reads;
pub mod record;
mod records;
pub mod shared;
