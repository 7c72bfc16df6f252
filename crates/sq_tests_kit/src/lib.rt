//! What tests begin with: what is asked of homes, streams that fail, choices, values that contracts do not see, and small ones.
#![tactic(auto)]

pub mod asks;
pub mod choices;
pub mod hidden;
pub mod setup;
pub mod streams;
