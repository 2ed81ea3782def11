//! Scripts to begin from: one instance of a node, and steps with a value of each input's type and clock.
#![tactic(auto)]

mod inputs;
mod scripts;

pub use scripts::{node_named, skeleton};
