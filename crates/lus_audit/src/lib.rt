//! `lus_audit PROGRAM JOURNAL` says whether the journals that `lus` printed are lawful, and else what is the first wrong line; with
//! `--many` whether a log of many instances is.
#![tactic(auto)]

mod log_reasons;
mod log_words;
mod logs;
mod reasons;
mod shell;
mod words;

pub use logs::command_many;
pub use shell::command;
