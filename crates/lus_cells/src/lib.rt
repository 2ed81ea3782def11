//! State cells: how much an instance of each node keeps from one instant to the next.
#![tactic(auto)]

mod counting;
mod weights;

pub use counting::cells_of_nodes;
