//! The words of the program's command line, and what they ask for.
#![tactic(auto)]

pub mod command;
pub mod flags;
pub mod texts;
pub mod values;
