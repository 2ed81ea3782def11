//! `lus_live --many PROGRAM NODE` hosts many instances of the node, which its input calls by their names, and writes their log, or
//! with `--json` each answer as an object; with a LOG it goes on in that file, and answers each call once its entry is there.
#![tactic(auto)]

mod notes;
mod objects;
mod shell;
mod words;

pub use shell::command;
pub use words::is_many;
