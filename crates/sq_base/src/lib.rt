//! The plain values of the queue: numbers, stamps, ids, handles, names, bodies, rows.
#![tactic(auto)]

pub mod body;
pub mod fields;
pub mod handle;
pub mod ids;
pub mod message_id;
pub mod name;
pub mod ranges;
pub mod refusal;
pub mod row;
pub mod settings;
pub mod stamp;
