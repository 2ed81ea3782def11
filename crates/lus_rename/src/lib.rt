//! A declared name replaced throughout a source.
#![tactic(auto)]

mod error;
mod keeping;
mod naming;
mod proposing;
mod renaming;
mod taken;

pub use error::RenameError;
pub use renaming::renamed;
