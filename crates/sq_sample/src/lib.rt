//! Which homes of a queue a call goes to.
#![tactic(auto)]

pub mod sampler;
