//! What is said of a limit that is passed: which, its value, and how many there are.
#![tactic(auto)]

mod cause;
mod counts;
mod depths;

pub use cause::{depth_cause, limit_cause};
