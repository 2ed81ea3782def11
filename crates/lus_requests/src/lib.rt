//! Requests to an instance of a node, its replies, the entries of its history, and callers with their calls.
#![tactic(auto)]

mod call;
mod request;
mod rows;

pub use call::{Call, Caller};
pub use request::{Entry, Reply, Request, Why};
pub use rows::Rows;
