//! Which branches of `if` and `merge` runs of a program's nodes take, and how often, as the definition of the streams has it.
#![tactic(auto)]

mod branch;
mod coverage;
mod taking;
mod text;

pub use branch::{Branch, Choice};
pub use coverage::Coverage;
