//! The library in use: short programs, each a test.
#![tactic(auto)]

#[cfg(test)]
mod tests;
