//! A first value on the wrong side of `fby` or `->`.

use crate::edit::Edit;
use crate::extent::extent_of;
use crate::lines::slice_of;
use crate::sought::variable_named;
use crate::within::expressions_in;
use lus_syntax::{Expr, Infix, Node, Prefix};
use std::alloc::{AllocError, Global};

/// A `fby` or `->` with a value on its right that is always the same, and what changes on its left.
#[derive(Clone, Copy)]
pub struct Exchanged<'t> {
    pub expr: &'t Expr,
    pub operator: &'static str,
    pub left: &'t Expr,
    pub right: &'t Expr,
}

/// Whether an expression is a value that is always the same: a literal, a constant or a constructor.
#[cycle(fixed)]
pub fn is_fixed(node: &Node, expr: &Expr) -> bool {
    match expr {
        Expr::Number(_, _) | Expr::Truth(_, _) => true,
        Expr::Name(name) => variable_named(node, name.text.as_str()).is_none(),
        Expr::Parentheses(_, operand) | Expr::Unary(Prefix::Negate, _, operand) => {
            is_fixed(node, operand)
        }
        _ => false,
    }
}

/// Whether an expression has a value of an earlier instant in it.
fn remembers(alloc: Global, expr: &Expr) -> Result<bool, AllocError> {
    let all = expressions_in(alloc, expr)?;
    Ok(
        all.iter().any(|inner| matches!(
            **inner,
            Expr::Unary(Prefix::Pre, _, _) | Expr::Binary(Infix::Fby, _, _)
        )),
    )
}

/// An expression of a node as a `fby` or `->` whose sides seem to be exchanged: on the right stands a value that is always the same, and on
/// the left of a `fby` what changes, of a `->` what has a value of an earlier instant in it.
pub fn exchange_in<'t>(
    alloc: Global,
    node: &Node,
    expr: &'t Expr,
) -> Result<Option<Exchanged<'t>>, AllocError> {
    let Expr::Binary(infix @ (Infix::Fby | Infix::Arrow), left, right) = expr else {
        return Ok(None);
    };
    if !is_fixed(node, right) || is_fixed(node, left) {
        return Ok(None);
    }
    let operator = match infix {
        Infix::Fby => "fby",
        _ if remembers(alloc, left)? => "->",
        _ => return Ok(None),
    };
    Ok(Some(Exchanged {
        expr,
        operator,
        left,
        right,
    }))
}

impl Exchanged<'_> {
    /// What is said of the operator: what its sides are.
    pub fn note(self) -> &'static str {
        if self.operator == "fby" {
            "Perhaps its two sides are exchanged: in `a fby b` the first value, `a`, stands on the left, and later values are those of `b` one instant before."
        } else {
            "Perhaps its two sides are exchanged: in `a -> b` the first value, `a`, stands on the left, and later values are those of `b`."
        }
    }

    /// The change of a source that exchanges the two sides.
    pub fn edit(self, alloc: Global, source: &str) -> Result<Edit, AllocError> {
        let span = extent_of(source, self.expr);
        let first = slice_of(source, extent_of(source, self.right));
        let later = slice_of(source, extent_of(source, self.left));
        let operator = self.operator;
        Ok(Edit {
            byte: span.start.byte,
            length: span.length,
            text: format!(in alloc; "{first} {operator} {later}")?,
        })
    }
}
