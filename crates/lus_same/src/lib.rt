//! Whether two programs are one but for their names.
#![tactic(auto)]

mod expressions;
mod nodes;
mod programs;
mod types;

pub use programs::same_programs;
