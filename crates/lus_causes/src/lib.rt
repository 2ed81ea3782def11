//! What is said of a refused source: the finding of its case, by the pass that refuses it.
#![tactic(auto)]

mod telling;

pub use lus_faults;
pub use telling::{finding_of, spelling_finding};
