//! Types over a whole source, and the program that it means.
#![tactic(auto)]

mod constants;
mod elaboration;
mod laws;
mod nodes;
mod passes;
mod typed;
mod typing;

pub use elaboration::misfits;
pub use laws::{few_parts, sound};
pub use lus_source::{Cause, Rejected, Whole};
pub use passes::program;
pub use typed::Typed;
pub use typing::{check_types, judge_types};
