//! Instants of nodes and the worlds that they make, found out slowly, by the equations as the source has them.
#![tactic(auto)]

mod beginning;
mod calling;
mod closing;
mod finding;
mod following;
mod judging;
mod keeping;
mod moment;
mod passing;
mod running;
mod world;

pub use beginning::start;
pub use keeping::keep;
pub use lus_reference::Operation;
pub use moment::{Fault, Moment};
pub use world::{Stop, extend};
