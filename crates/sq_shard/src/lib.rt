//! One home of a queue, over any store of its rows.
#![tactic(auto)]

pub mod made;
pub mod moves;
pub mod shard;
