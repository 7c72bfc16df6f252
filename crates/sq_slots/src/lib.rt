//! Rows in slots, each found by its slot and its serial.
#![tactic(auto)]

pub mod table;
