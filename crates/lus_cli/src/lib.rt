//! The command line of `lus`.
#![tactic(auto)]

mod calls;
mod fault;
mod files;
mod line;
mod program;
mod shell;
mod tool;
mod words;

pub use calls::{lines_status, tell_nodes};
pub use fault::{Fault, script_text};
pub use files::read_file;
pub use lus_host;
pub use program::read_program;
pub use shell::{command, command_in, tell};
pub use tool::{bare, is_set, value_of, with_flag, with_optional, with_required, with_value};
pub use words::{Task, WordsError, matches, read_words};
