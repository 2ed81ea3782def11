//! Things that use each other: an order in which each comes after what it uses, or a cycle.
#![tactic(auto)]

mod filling;
mod laws;
mod walk;

pub use filling::{Rule, along};
pub use laws::orders_have_no_cycle;
pub use walk::{GraphError, order_of};
