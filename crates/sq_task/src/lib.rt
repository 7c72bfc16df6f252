//! Message move tasks: what each one may do, and what became of its messages.
#![tactic(auto)]

pub mod leave;
pub mod task;
pub mod task_laws;
