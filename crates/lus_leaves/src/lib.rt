//! Rows, requests, replies and entries as C has them, numbers and arrays of numbers, and back.
#![tactic(auto)]

mod leaf;
mod reading;
mod requests;
mod writing;

pub use leaf::Leaf;
pub use reading::{row_of, rows_of};
pub use requests::{Answer, EntryOut, request_of, write_entry, write_reply};
pub use writing::{write_row, write_rows};
