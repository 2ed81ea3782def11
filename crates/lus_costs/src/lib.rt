//! What a step of a node takes at most and what its instances keep, before anything runs.
#![tactic(auto)]

mod code;
mod cost;
mod counting;

pub use code::{cost_in, orders_of_code};
pub use cost::Cost;
