//! A source laid out: the same tokens and the same comments, with other blanks and new lines.
#![tactic(auto)]

mod error;
mod formatting;

pub use error::FormatError;
pub use formatting::{WIDTH, format, format_to};
