//! How a source is laid out: what stands before each token, nothing, a blank, or a new line at a column.
//!
//! What is made here is a proposal: `lus_format` looks whether it keeps the tokens and the comments.
#![tactic(auto)]

mod comments;
mod declarations;
mod expressions;
mod groups;
mod items;
mod page;
mod shapes;
mod writing;

pub use writing::laid_out;
