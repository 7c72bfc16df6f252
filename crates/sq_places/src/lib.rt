//! Where the messages of a run are.
#![tactic(auto)]

mod home_rows;
mod home_states;
pub mod message_pass;
pub mod places;
mod state;
