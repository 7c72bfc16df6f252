//! A service that is run by threads: as a server over sockets, and as a race of clients.
#![tactic(auto)]

pub mod clients;
pub mod clock;
mod crew;
pub mod ending;
pub mod host;
mod movers;
mod permits;
pub mod race;
pub mod serve;
pub mod served;
mod threads;
pub mod verdict;
