//! Declarations of variables that are at fault: how they would read, and which equations that would mend.
#![tactic(auto)]

mod changing;

pub use changing::{alone, group_end, mended_by, redeclaring, type_span};
