//! The texts of queue policies and of ARNs.
#![tactic(auto)]

pub mod amount;
pub mod arn;
pub mod policy;
