//! Texts that others wrote, as a terminal may show them.
#![tactic(auto)]

mod showing;

pub use showing::{printable, push_printable};
