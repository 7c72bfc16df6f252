//! The program, but for the process that it runs in, and for threads and sockets.
#![tactic(auto)]

pub mod program;
pub mod reports;
pub mod results;
