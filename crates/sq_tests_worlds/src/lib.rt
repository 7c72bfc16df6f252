//! The tests of one thread: of values, homes and their stores of rows, of worlds and what clients call there, and of runs over lines.
#![tactic(auto)]

#[cfg(test)]
mod tests;
