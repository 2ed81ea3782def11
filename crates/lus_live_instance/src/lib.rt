//! An instance of a program's node that stores no history.
#![tactic(auto)]

mod live;

pub use live::{Instance, new_instance};
pub use lus_machine;
