//! Whether records and histories are of each other, and the one run of all that was done.
#![tactic(auto)]

pub mod by_stamp;
pub mod check;
pub mod creations;
pub mod homes;
pub mod merge;
pub mod names;
pub mod parts;
pub mod run;
pub mod tagged;
