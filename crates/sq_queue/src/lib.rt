//! The service that many threads share: its parts under locks of their own, and the sessions of its clients.
#![tactic(auto)]

pub mod actors;
pub mod answers;
pub mod calls;
pub mod finish;
mod making;
pub mod named;
pub mod parts;
pub mod reads;
pub mod service;
pub mod session;
mod session_steps;
mod stay;
pub mod threads;
