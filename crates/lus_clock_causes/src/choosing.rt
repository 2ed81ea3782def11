//! An `if` by the variable whose clock its first value is on, and the `merge` that is meant.

use crate::clock::Tick;
use crate::mending::Context;
use crate::placing::Misplaced;
use crate::sampling::is_whole;
use lus_faults::{Edit, expressions_in, extent_of, slice_of};
use lus_syntax::Expr;
use std::alloc::{AllocError, Global};

/// Whether two expressions stand at one place.
fn is_same(source: &str, one: &Expr, other: &Expr) -> bool {
    let (one, other) = (extent_of(source, one), extent_of(source, other));
    one.start.byte == other.start.byte && one.length == other.length
}

/// Whether an expression is the variable of a test that it is true.
fn is_tested(expr: &Expr, tick: Tick<'_>) -> bool {
    match expr {
        Expr::Name(name) => name.text.as_str() == tick.variable.text.as_str()
            && tick.label == "true",
        _ => false,
    }
}

/// A value at the instants at which a variable is false: one that is written is on any clock.
fn sampled(alloc: Global, source: &str, expr: &Expr, variable: &str) -> Result<String, AllocError> {
    let text = slice_of(source, extent_of(source, expr));
    match expr {
        Expr::Number(_, _) | Expr::Truth(_, _) => String::from_str(alloc, text),
        Expr::Name(_) | Expr::Parentheses(_, _) => format!(in alloc; "{text} when not {variable}"),
        _ => format!(in alloc; "({text}) when not {variable}"),
    }
}

/// The change of a source by which a `merge` chooses between an expression on the clock of a variable and another one, in the place of an
/// `if` by this variable; nothing where there is no such `if`.
pub fn chosen(
    alloc: Global,
    on: Context<'_>,
    found: Misplaced<'_>,
) -> Result<Option<Edit>, AllocError> {
    let Some(tick) = found.has.newest else {
        return Ok(None);
    };
    for expr in &expressions_in(alloc, &on.equation.right)? {
        if let Expr::If(_, condition, left, right) = *expr
            && is_tested(condition, tick)
            && is_same(on.source, left, found.expr)
        {
            let variable = tick.variable.text.as_str();
            let first = slice_of(on.source, extent_of(on.source, left));
            let second = sampled(alloc, on.source, right, variable)?;
            let span = extent_of(on.source, expr);
            let (open, close) = if is_whole(on.source, on.equation, span) {
                ("", "")
            } else {
                ("(", ")")
            };
            return Ok(Some(Edit {
                byte: span.start.byte,
                length: span.length,
                text: format!(in alloc;
                    "{open}merge {variable} (true -> {first}) (false -> {second}){close}"
                )?,
            }));
        }
    }
    Ok(None)
}
