//! Movers: sessions that bring dead letters, and the messages of move tasks, to where they go.
#![tactic(auto)]

pub mod mover;
pub mod turns;
mod walks;
