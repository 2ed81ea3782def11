//! `lus_live PROGRAM NODE` makes the calls that its input has, a line each, on an instance of the node, and writes its journal as it grows.
//! With `--json` it writes each reply as an object of JSON instead, or with `--csv` the outputs of steps as records, once the call is in
//! the journal that is named, and with `--sync` once that was synced with it.
#![tactic(auto)]

mod beginning;
mod limits;
mod log;
mod notes;
mod runs;
mod shell;
mod tables;
mod words;

pub use limits::{Limits, limits_in, tell_above, with_limits};
pub use log::Log;
pub use shell::command;
