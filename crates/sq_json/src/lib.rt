//! Lines of JSON over the flat tape of `json`, seen as the data of `serde_json`'s definitions.
#![tactic(auto)]

pub mod line;
mod number;
pub mod value;

pub use json::Scratch;
