//! Theorems of the model and worked cases of it, each the contract of a function without code.
#![tactic(auto)]

pub mod directory_laws;
pub mod drain_laws;
pub mod laws;
pub mod ledger_laws;
pub mod worked;
pub mod worked_directory;
pub mod worked_drain;
pub mod worked_moves;
pub mod worked_queues;
pub mod worked_run;
pub mod worked_tasks;
