//! Where a value is wanted that may be nil.

use crate::flags::Flags;
use lus_faults::{Role, Sought, expressions_in, start_of, variable_named};
use lus_syntax::{Expr, Infix, Name, Part, Prefix};
use std::alloc::{AllocError, Global};

/// An expression that may be nil where a value is wanted, what is said of it, in three parts of which the second is a name or a
/// word, and the name that is marked in its place.
#[derive(Clone, Copy)]
pub struct Wanting<'t> {
    pub sentence: (&'static str, &'t str, &'static str),
    pub expr: &'t Expr,
    pub marked: Option<&'t Name>,
}

/// What most sentences end with.
const BEHIND: &str = "` may have no value at the first instant";

impl<'t> Flags<'t> {
    /// What wants an operand, where that stands at the place and may be nil.
    fn operand(
        &self,
        sought: Sought,
        expr: &'t Expr,
        sentence: (&'static str, &'t str, &'static str),
    ) -> Option<Wanting<'t>> {
        if sought.is_at(start_of(expr)) && self.origin(expr).is_some() {
            return Some(Wanting {
                sentence,
                expr,
                marked: None,
            });
        }
        None
    }

    /// The first among parts that stands at the place and may be nil.
    fn part(
        &self,
        sought: Sought,
        parts: &'t [Part],
        sentence: (&'static str, &'t str, &'static str),
    ) -> Option<Wanting<'t>> {
        for part in parts {
            let found = self.operand(sought, &part.value, sentence);
            if found.is_some() {
                return found;
            }
        }
        None
    }

    /// What wants a value of its own operands at a place, where they may be nil.
    fn wanting(&self, sought: Sought, expr: &'t Expr) -> Option<Wanting<'t>> {
        let behind = "the value after `";
        match expr {
            Expr::Call(name, parts) => {
                let sentence = ("this argument of `", name.text.as_str(), BEHIND);
                self.part(sought, parts, sentence)
            }
            Expr::Merge(_, _, parts) => {
                let instant = "` may have no value at its first instant";
                self.part(sought, parts, ("this branch of a `", "merge", instant))
            }
            Expr::Unary(Prefix::Pre, _, operand) => {
                self.operand(sought, operand, (behind, "pre", BEHIND))
            }
            Expr::Binary(Infix::Fby, _, right) => {
                self.operand(sought, right, (behind, "fby", BEHIND))
            }
            _ => None,
        }
    }

    /// A variable on the left of an equation that wants a value: an output, or one that a clock tests.
    fn wanted(&self, name: &'t Name, expr: &'t Expr) -> Wanting<'t> {
        let text = name.text.as_str();
        let sentence = match variable_named(self.node, text) {
            Some(variable) if variable.role == Role::Output => ("the output `", text, BEHIND),
            _ => ("the clock `", text, BEHIND),
        };
        Wanting {
            sentence,
            expr,
            marked: Some(name),
        }
    }
}

/// What wants a value at a place of a node, where it may be nil.
pub fn wanting_at<'t>(
    alloc: Global,
    flags: &Flags<'t>,
    sought: Sought,
) -> Result<Option<Wanting<'t>>, AllocError> {
    for equation in &flags.node.equations {
        for name in &equation.left {
            if sought.is_at(name.span.start) {
                return Ok(Some(flags.wanted(name, &equation.right)));
            }
        }
        for expr in &expressions_in(alloc, &equation.right)? {
            let found = flags.wanting(sought, expr);
            if found.is_some() {
                return Ok(found);
            }
        }
    }
    Ok(None)
}
