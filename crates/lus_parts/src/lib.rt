//! The expressions in the text of a node, each with its own clock, as data.
#![tactic(auto)]

mod clocks;
mod listing;
mod part;
mod under;

pub use clocks::{base_of, clock_of, formal_clock};
pub use listing::parts_of;
pub use part::Part;
