//! `lus_test PROGRAM TABLE..` tries a controller on tables of inputs and of the outputs that are expected, a row for each instant, and
//! says of each table that it passes, or where it first doesn't. With `--write` it writes a table anew, with the outputs that come, with
//! `--journal` the journal of its run, and with `--coverage` which branches of the program the tables took. With `--random` it tries an
//! output that is to hold on random inputs.
#![tactic(auto)]

mod branches;
mod claim_shell;
mod claims;
mod columns;
mod covering;
mod drawing;
mod error;
mod failing;
mod filling;
mod finding;
mod grid;
mod journal;
mod objects;
mod options;
mod problem;
mod reading;
mod report;
mod running;
mod shell;
mod shrinking;
mod subjects;
mod table;
mod telling;
mod testing;
mod trial;
mod trying;
mod words;

pub use error::TableError;
pub use finding::Finding;
pub use reading::read_records;
pub use shell::command;
pub use testing::{Tested, test};
