//! Traces of journals: as text, as a picture of waves, as a page of HTML, and for other programs each instance's table as CSV, and all of
//! them as VCD, which waveform viewers read.
#![tactic(auto)]

mod acting;
mod axis;
mod cutting;
mod document;
mod dump;
mod frames;
mod further;
mod kinds;
mod lanes;
mod lines;
mod markup;
mod page;
mod picture;
mod reading;
mod runs;
mod scales;
mod scopes;
mod showing;
mod tables;
mod time;
mod titles;
mod trace;
mod values;
mod words;
mod written;

pub use cutting::parts_between;
pub use dump::{Dump, vcd};
pub use further::push_further;
pub use lines::{Line, lines_of};
pub use page::html;
pub use picture::waves;
pub use tables::{csv, push_columns, push_head};
pub use trace::{Heading, Lane, Refusal, Side, Signal, SignalKind, Trace};
pub use written::text;
