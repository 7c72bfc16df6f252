//! The tests of the service that threads share.
#![tactic(auto)]

#[cfg(test)]
mod tests;
