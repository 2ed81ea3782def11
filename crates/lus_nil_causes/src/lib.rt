//! What is said of a value that may be nil where none may.
#![tactic(auto)]

mod cause;
mod first;
mod flags;
mod wanting;
mod way;

pub use cause::nil_cause;
pub use flags::may_be_nil;
