//! The whole system from its parts: calls of clients, done by many actors at many homes.
#![tactic(auto)]

pub mod progress;
pub mod world;
pub mod world_steps;

pub use sq_audit::check::AuditFault;
pub use sq_audit::merge::merge;
pub use sq_audit::parts::Parts;
pub use sq_audit::run::Run;
pub use sq_audit::tagged::Tagged;
pub use sq_places::message_pass::place_of;
pub use sq_places::places::places_of;
pub use sq_steps::act::{Act, HomeAct, NextItem, Outcome, SharedAct, Step, TaskAct, TaskStart};
