//! What there is to say of a program and of scripts for it: why they are refused and what they are warned of; and how that is written,
//! as a text for people, which cites the lines, and as lines of JSON.
#![tactic(auto)]

mod citing;
mod diagnostic;
mod json;
mod quoting;
mod text;

pub use diagnostic::{Code, Diagnosis, Diagnostic, Site};
pub use json::push_lines;
pub use quoting::push_string;
pub use text::push_report;
