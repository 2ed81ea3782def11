//! The parser.
#![tactic(auto)]

mod constants;
mod expressions;
mod fault;
mod front;
mod lists;
mod nodes;
mod openings;
mod operators;
mod parts;
mod primaries;
mod program;
mod trees;
mod types;
mod variables;

pub use lus_spelling::one_tree;
pub use program::parse;
