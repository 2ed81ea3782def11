//! What an accepted source says that its author can hardly have meant: what nothing uses, and what is always so.
#![tactic(auto)]

mod branches;
mod choices;
mod clocks;
mod comparisons;
mod exchanges;
mod faults;
mod guards;
mod hidden;
mod kind;
mod known;
mod numbers;
mod same;
mod scope;
mod table;
mod unused;
mod warning;

pub use warning::warnings_of;
