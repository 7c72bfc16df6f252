//! Bytes in, cut into lines, and bytes out, with each failed call counted.
#![tactic(auto)]

pub mod buffer;
pub mod counted;
pub mod lines;
pub mod put;
pub mod replies;
