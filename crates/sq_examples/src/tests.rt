//! A program a file; `clients` has what they all ask, and `worlds` where two of them ask it.

mod clients;
mod dead_letters;
mod send_and_receive;
mod two_threads;
mod worlds;
