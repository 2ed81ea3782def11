//! Reading a device line by line.
#![tactic(auto)]

mod buffered;
mod error;
mod line;
mod whole;

pub use buffered::Buffered;
pub use error::LineError;
pub use line::{MOST_LINE_BYTES, Reading, read_line};
pub use whole::{Whole, read_whole_line};
