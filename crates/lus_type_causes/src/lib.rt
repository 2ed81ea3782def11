//! What is said of types, counts, labels or fields that disagree, by what the compiler's check had in hand.
#![tactic(auto)]

mod cause;
mod clashes;
mod declared;
mod given;
mod kinds;
mod listing;
mod members;
mod operators;
mod reaching;
mod redeclaring;
mod repair;
mod rows;
mod said;

pub use cause::type_cause;
