//! Requests read back from the lines of a journal, and values from its words: whatever a line spells is given.
#![tactic(auto)]

mod asked;
mod number;
mod piece;
mod request;
mod value;

pub use asked::read_asked;
pub use number::natural;
pub use value::read_word;
