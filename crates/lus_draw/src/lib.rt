//! `lus_draw [--waves | --html | --csv | --vcd] [--from N] [--to N] [--all | --signals NAMES] PROGRAM JOURNAL` draws the journals that `lus`
//! printed, or a part of them, while it audits them: as text, as a picture of waves or as a page of HTML, or writes them for other
//! programs, as CSV or as a value change dump. `lus_draw --html JOURNAL` makes a page of a journal's lines alone.
#![tactic(auto)]

mod drawing;
mod gathering;
mod reading;
mod shell;
mod words;

pub use shell::command;
