//! What is due when: moments with slots, in order.
#![tactic(auto)]

pub mod deadline;
pub mod index;
mod tree;
