//! A part of the text of a node.

use lus_program::{Expr, Test};

/// An expression in the text of a node.
#[derive(Drop)]
pub struct Part<'p> {
    pub expr: &'p Expr,
    /// The tests of its clock, the newest first.
    pub clock: Vec<Test>,
    /// How many calls stand before it in the text.
    pub number: usize,
}
