//! A module a subject. `shared` has the service under test, `stories` what clients do there, `asks` what they ask, and `evidence`
//! what a service leaves.

mod asks;
mod evidence;
mod movers;
mod named;
mod runs;
mod shared;
mod stories;
mod threads;
