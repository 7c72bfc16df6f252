//! The rows of a home, in whatever form they are kept: in slots, found by what is due, or one after another.
#![tactic(auto)]

mod changes;
mod due;
pub mod plain;
mod rows;
pub mod slots;
mod split;
pub mod store;
mod visible;
