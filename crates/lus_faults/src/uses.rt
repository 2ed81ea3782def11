//! Uses of a variable at the instant of its place, and texts in their place.

use crate::edit::{Edit, joined};
use lus_syntax::{Expr, Infix, Part, Prefix, Span};
use std::alloc::{AllocError, Global};

/// Adds where an expression uses a variable at the same instant, but for the variable of a `merge` or a `when`.
#[cycle(uses)]
fn add_uses(uses: &mut Vec<Span>, expr: &Expr, text: &str) -> Result<(), AllocError> {
    match expr {
        Expr::Number(_, _) | Expr::Truth(_, _) | Expr::Unary(Prefix::Pre, _, _) => Ok(()),
        Expr::Name(name) => {
            if name.text.as_str() == text {
                uses.push(name.span)?;
            }
            Ok(())
        }
        Expr::Call(_, parts)
        | Expr::Structure(_, parts)
        | Expr::Variadic(_, _, parts)
        | Expr::Merge(_, _, parts) => add_in_parts(uses, parts, text),
        Expr::Field(operand, _)
        | Expr::When(operand, _)
        | Expr::Parentheses(_, operand)
        | Expr::Unary(_, _, operand)
        | Expr::Binary(Infix::Fby, operand, _) => add_uses(uses, operand, text),
        Expr::Binary(_, left, right) => {
            add_uses(uses, left, text)?;
            add_uses(uses, right, text)
        }
        Expr::If(_, condition, left, right) => {
            add_uses(uses, condition, text)?;
            add_uses(uses, left, text)?;
            add_uses(uses, right, text)
        }
    }
}

#[cycle(uses)]
fn add_in_parts(uses: &mut Vec<Span>, parts: &[Part], text: &str) -> Result<(), AllocError> {
    for part in parts {
        add_uses(uses, &part.value, text)?;
    }
    Ok(())
}

/// Where an expression uses a variable at the same instant, in the order of the source, but for the variable of a `merge` or a `when`.
pub fn uses_at_once(alloc: Global, expr: &Expr, text: &str) -> Result<Vec<Span>, AllocError> {
    let mut uses = Vec::new(alloc);
    add_uses(&mut uses, expr, text)?;
    Ok(uses)
}

/// The change of a source that writes a text in the place of each of some spans, which are in the order of the source.
pub fn replacing(
    alloc: Global,
    source: &str,
    uses: &[Span],
    written: &str,
) -> Result<Option<Edit>, AllocError> {
    let mut edits = Vec::new(alloc);
    for span in uses {
        edits.push(Edit {
            byte: span.start.byte,
            length: span.length,
            text: String::from_str(alloc, written)?,
        })?;
    }
    joined(alloc, source, &edits)
}
