//! What is said of clocks that disagree.
#![tactic(auto)]

mod called;
mod cause;
mod choosing;
mod clock;
mod completing;
mod declared;
mod lacking;
mod mending;
mod placing;
mod redeclaring;
mod sampling;
mod unnamed;

pub use cause::clock_cause;
