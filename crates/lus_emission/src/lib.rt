//! The code of classes as orders: a class after those that it calls.
#![tactic(auto)]

mod calls;
mod class;
mod classes;
mod instructions;
mod laws;
mod moving;
mod parts;
mod stores;
mod targets;
mod unfolding;

pub use classes::emit_classes;
pub use laws::{code_makes_class_steps, code_nests};
