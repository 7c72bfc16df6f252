//! Lines of requests in, lines of replies out.
#![tactic(auto)]

pub mod answering;
pub mod audit;
pub mod long_lines;
mod owed;
pub mod run;
pub mod script;
pub mod serve;

pub use sq_replies::reply::reply_text;
pub use sq_requests::request::read_request;
