//! Where expressions stand.

use lus_syntax::{Expr, Label, Part, Place, Span, Test};

/// The place of the first token of an expression.
#[cycle(starts)]
pub fn start_of(expr: &Expr) -> Place {
    match expr {
        Expr::Number(_, span) => span.start,
        Expr::Truth(_, span) => span.start,
        Expr::Name(name) => name.span.start,
        Expr::Call(name, _) => name.span.start,
        Expr::Structure(name, _) => name.span.start,
        Expr::Merge(span, _, _) => span.start,
        Expr::Variadic(_, span, _) => span.start,
        Expr::Field(operand, _) => start_of(operand),
        Expr::Parentheses(span, _) => span.start,
        Expr::When(operand, _) => start_of(operand),
        Expr::Unary(_, span, _) => span.start,
        Expr::Binary(_, left, _) => start_of(left),
        Expr::If(span, _, _, _) => span.start,
    }
}

/// The byte behind the next one of this kind, from a byte on; that byte itself where there is none.
fn behind_next(source: &str, from: usize, wanted: u8) -> usize {
    let mut at = from;
    for byte in source.as_bytes().get(from..).unwrap_or(&[]) {
        at = at.saturating_add(1);
        if *byte == wanted {
            return at;
        }
    }
    from
}

/// The byte behind a test.
fn test_end(source: &str, test: &Test) -> usize {
    match test {
        Test::Holds(name) => name.span.end().byte,
        Test::Fails(_, name) => name.span.end().byte,
        Test::Is(_, name) => behind_next(source, name.span.end().byte, b')'),
    }
}

/// The byte behind an expression. One that a bracket closes ends with the first one behind its last part.
#[cycle(ends)]
fn end_of(source: &str, expr: &Expr) -> usize {
    match expr {
        Expr::Number(_, span) => span.end().byte,
        Expr::Truth(_, span) => span.end().byte,
        Expr::Name(name) => name.span.end().byte,
        Expr::Call(name, parts) => {
            behind_next(source, last_end(source, name.span.end().byte, parts), b')')
        }
        Expr::Structure(name, parts) => {
            behind_next(source, last_end(source, name.span.end().byte, parts), b'}')
        }
        Expr::Merge(_, name, parts) => {
            behind_next(source, last_end(source, name.span.end().byte, parts), b')')
        }
        Expr::Variadic(_, span, parts) => {
            behind_next(source, last_end(source, span.end().byte, parts), b')')
        }
        Expr::Field(_, name) => name.span.end().byte,
        Expr::Parentheses(_, inner) => behind_next(source, end_of(source, inner), b')'),
        Expr::When(_, test) => test_end(source, test),
        Expr::Unary(_, _, operand) => end_of(source, operand),
        Expr::Binary(_, _, right) => end_of(source, right),
        Expr::If(_, _, _, right) => end_of(source, right),
    }
}

/// The byte behind the last of some parts, and a byte before them where there is none.
#[cycle(ends)]
fn last_end(source: &str, before: usize, parts: &[Part]) -> usize {
    let mut end = before;
    if let Some(part) = parts.last() {
        end = end_of(source, &part.value);
    }
    end
}

/// Where an expression stands in its source, from its first token to its last.
pub fn extent_of(source: &str, expr: &Expr) -> Span {
    let start = start_of(expr);
    let end = end_of(source, expr);
    Span {
        start,
        length: end.saturating_sub(start.byte),
    }
}

/// Where a label stands.
pub fn label_span(label: &Label) -> Span {
    match label {
        Label::Constructor(name) => name.span,
        Label::Truth(_, span) => *span,
    }
}
