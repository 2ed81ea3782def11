//! The innermost expression of a node's equations round a byte, with what it means.

use lus_faults::{extent_of, start_of};
use lus_program::{Expr, Form, Node};
use lus_syntax::{Expr as Source, Infix, Node as SourceNode, Part, Span};

/// An expression of a source, and what it means.
#[derive(Clone, Copy)]
pub(crate) struct Meant<'t> {
    pub source: &'t Source,
    pub expr: &'t Expr,
}

pub(crate) fn holds(span: Span, byte: usize) -> bool {
    span.start.byte <= byte && byte < span.start.byte.saturating_add(span.length)
}

/// An expression, if it is round a byte.
fn round<'t>(text: &str, source: &'t Source, byte: usize) -> Option<&'t Source> {
    if holds(extent_of(text, source), byte) {
        Some(source)
    } else {
        None
    }
}

/// The part among some that is round a byte.
fn part_round<'t>(text: &str, parts: &'t [Part], byte: usize) -> Option<&'t Source> {
    for part in parts {
        if let Some(found) = round(text, &part.value, byte) {
            return Some(found);
        }
    }
    None
}

/// The operand of an expression that is round a byte.
fn operand_round<'t>(text: &str, source: &'t Source, byte: usize) -> Option<&'t Source> {
    match source {
        Source::Number(_, _) | Source::Truth(_, _) | Source::Name(_) => None,
        Source::Call(_, parts)
        | Source::Structure(_, parts)
        | Source::Merge(_, _, parts)
        | Source::Variadic(_, _, parts) => part_round(text, parts, byte),
        Source::Field(operand, _)
        | Source::Parentheses(_, operand)
        | Source::When(operand, _)
        | Source::Unary(_, _, operand) => round(text, operand, byte),
        Source::Binary(_, left, right) => round(text, left, byte).or(round(text, right, byte)),
        Source::If(_, condition, left, right) => round(text, condition, byte)
            .or(round(text, left, byte))
            .or(round(text, right, byte)),
    }
}

/// An expression, if it begins in a span.
fn within(expr: &Expr, span: Span) -> Option<&Expr> {
    if holds(span, expr.place.byte) {
        Some(expr)
    } else {
        None
    }
}

/// The expression among some that begins in a span.
fn among(exprs: &[Expr], span: Span) -> Option<&Expr> {
    exprs.iter().find(|expr| holds(span, expr.place.byte))
}

/// The operand of an expression that begins in a span.
fn operand_within(expr: &Expr, span: Span) -> Option<&Expr> {
    match &expr.form {
        Form::Literal(_) | Form::Variable(_) => None,
        Form::Operate(_, operands) | Form::Merge(_, operands) | Form::Call(_, operands) => {
            among(operands, span)
        }
        Form::Pre(operand) | Form::When(_, operand) => within(operand, span),
        Form::Arrow(first, later) => within(first, span).or(within(later, span)),
    }
}

/// What the operand of an expression means that has a span. The right side of `fby` means the `pre` of it.
fn meaning_of<'t>(whole: Meant<'t>, operand: &'t Source, span: Span) -> Option<&'t Expr> {
    if let Source::Parentheses(_, _) = whole.source {
        return Some(whole.expr);
    }
    let found = operand_within(whole.expr, span)?;
    match (whole.source, &found.form) {
        (Source::Binary(Infix::Fby, _, _), Form::Pre(kept))
            if start_of(operand).byte != start_of(whole.source).byte => { Some(kept) }
        _ => Some(found),
    }
}

/// The innermost expression round a byte that is in this one.
pub(crate) fn innermost<'t>(text: &str, whole: Meant<'t>, byte: usize) -> Meant<'t> {
    let mut here = whole;
    for _deep in 0..text.len() {
        let Some(source) = operand_round(text, here.source, byte) else {
            return here;
        };
        let Some(expr) = meaning_of(here, source, extent_of(text, source)) else {
            return here;
        };
        here = Meant { source, expr };
    }
    here
}

/// The right side of a node's equations that is round a byte, with what it means.
pub(crate) fn right_round<'t>(
    text: &str,
    source: &'t SourceNode,
    node: &'t Node,
    byte: usize,
) -> Option<Meant<'t>> {
    for equation in &source.equations {
        let span = extent_of(text, &equation.right);
        if holds(span, byte) {
            for meant in &node.equations {
                if let Some(expr) = within(&meant.right, span) {
                    let source = &equation.right;
                    return Some(Meant { source, expr });
                }
            }
            return None;
        }
    }
    None
}
