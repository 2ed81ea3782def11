//! `lus_format [--check | --write] FILE..` lays out sources, says which aren't laid out, or puts laid out ones in their place.
#![tactic(auto)]

mod problem;
mod replacing;
mod shell;
mod words;

pub use replacing::{Replace, Unreplaced};
pub use shell::command;
