//! Devices that give and take bytes, and the text of journals.
#![tactic(auto)]

mod device;
mod folder;
mod journal;
mod line;
mod sink;
mod source;

pub use device::{Disk, Failure, Input, Output};
pub use folder::Folder;
pub use journal::{Journal, WriteError, write_journals};
pub use line::{push_line, push_row};
pub use sink::{Sink, write_all};
pub use source::{ReadError, Source, read_at_most};
