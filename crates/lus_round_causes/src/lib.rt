//! What is said of variables that need each other at one instant, and of nodes and types that lead back to themselves.
#![tactic(auto)]

mod cycle;
mod delaying;
mod needs;
mod recursion;

pub use cycle::cycle_cause;
pub use recursion::recursion_cause;
