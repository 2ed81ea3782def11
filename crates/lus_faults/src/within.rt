//! The expressions in an expression.

use lus_syntax::{Expr, Part};
use std::alloc::{AllocError, Global};

/// Appends an expression, and then those in it.
#[cycle(within)]
fn push_all<'t>(found: &mut Vec<&'t Expr>, expr: &'t Expr) -> Result<(), AllocError> {
    found.push(expr)?;
    match expr {
        Expr::Number(_, _) | Expr::Truth(_, _) | Expr::Name(_) => Ok(()),
        Expr::Call(_, parts)
        | Expr::Structure(_, parts)
        | Expr::Merge(_, _, parts)
        | Expr::Variadic(_, _, parts) => push_parts(found, parts),
        Expr::Field(operand, _)
        | Expr::Parentheses(_, operand)
        | Expr::When(operand, _)
        | Expr::Unary(_, _, operand) => push_all(found, operand),
        Expr::Binary(_, left, right) => {
            push_all(found, left)?;
            push_all(found, right)
        }
        Expr::If(_, condition, left, right) => {
            push_all(found, condition)?;
            push_all(found, left)?;
            push_all(found, right)
        }
    }
}

#[cycle(within)]
fn push_parts<'t>(found: &mut Vec<&'t Expr>, parts: &'t [Part]) -> Result<(), AllocError> {
    for part in parts {
        push_all(found, &part.value)?;
    }
    Ok(())
}

/// An expression and all in it: each before its operands, and these from left to right.
pub fn expressions_in(alloc: Global, expr: &Expr) -> Result<Vec<&Expr>, AllocError> {
    let mut found = Vec::new(alloc);
    push_all(&mut found, expr)?;
    Ok(found)
}
