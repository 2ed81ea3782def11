//! Tables of histories: for each instance a column for each accepted instant, and for each event between instants.
#![tactic(auto)]

mod given;
mod lineage;
mod parts;
mod table;

pub use given::given_rows;
pub use lineage::Head;
pub use parts::{Part, is_instant};
pub use table::{Column, Table};
