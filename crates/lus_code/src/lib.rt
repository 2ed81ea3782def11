//! The code of a program: a class for each node, with code that makes its instants in cells for all that an instance keeps.
#![tactic(auto)]

mod classes;
mod code;

pub use code::{Code, translate};
pub use lus_cells;
pub use lus_normal;
pub use lus_order;
