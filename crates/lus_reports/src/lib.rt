//! What there is to say to people of programs and their scripts: why and where they are refused, what they are warned of, and which nodes
//! an accepted program has.
#![tactic(auto)]

mod check;
mod diagnosing;
mod explanation;
mod failed_check;
mod form;
mod keys;
mod known;
mod nodes;
mod outlining;
mod scripts;
mod sentences;
mod spot;
mod types;
mod value;

pub use diagnosing::{diagnose, errors_of, report, warned_of};
pub use explanation::explain;
pub use lus_cli;
pub use outlining::outline;
pub use scripts::script_error;
