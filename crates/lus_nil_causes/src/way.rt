//! The way from a value that is wanted to the `pre` that has none.

use crate::first::first_value;
use crate::flags::Flags;
use lus_faults::{
    Edit, Exchanged, Finding, bytes_at, expressions_in, extent_of, is_fixed, slice_of, start_of,
};
use lus_syntax::{Expr, Infix, Prefix, Span, Tree};
use std::alloc::{AllocError, Global};

/// How many variables a way is followed through, and how many `pre` of one expression are written anew.
const MOST_STEPS: usize = 20;

/// What a way is looked for in.
#[derive(Clone, Copy)]
pub struct Given<'c, 't> {
    pub alloc: Global,
    pub source: &'t str,
    pub tree: &'t Tree,
    pub flags: &'c Flags<'t>,
}

/// Whether a span is all that stands in its parentheses or between their commas, or on the right of an equation.
fn is_alone(given: Given<'_, '_>, span: Span) -> bool {
    let source = given.source;
    let front = bytes_at(source, 0, span.start.byte)
        .unwrap_or("")
        .trim_end();
    let behind = bytes_at(source, span.end().byte, source.len())
        .unwrap_or("")
        .trim_start();
    let is_part = (front.ends_with("(") || front.ends_with(","))
        && (behind.starts_with(")") || behind.starts_with(","));
    is_part
        || given.flags.node.equations.iter().any(|equation| is_same(
            extent_of(source, &equation.right),
            span,
        ))
}

/// Appends how a `pre` at a span is written with a first value.
fn push_written(
    given: Given<'_, '_>,
    written: &mut String,
    first: &str,
    span: Span,
) -> Result<(), AllocError> {
    let text = slice_of(given.source, span);
    if is_alone(given, span) {
        write!(written, "{first} -> {text}")
    } else {
        write!(written, "({first} -> {text})")
    }
}

/// How all of some `pre` are written with a first value, which stand one behind the other.
fn edit_of(given: Given<'_, '_>, memories: &[&Expr]) -> Result<Option<Edit>, AllocError> {
    let mut text = String::new(given.alloc);
    let mut start = None;
    let mut end = 0;
    for memory in memories {
        let span = extent_of(given.source, memory);
        let Some(first) = first_value(given.tree, given.flags.node, memory) else {
            return Ok(None);
        };
        if start.is_none() {
            start = Some(span.start.byte);
        } else {
            text.push_str(bytes_at(given.source, end, span.start.byte).unwrap_or(""))?;
        }
        push_written(given, &mut text, first, span)?;
        end = span.end().byte;
    }
    let Some(byte) = start else {
        return Ok(None);
    };
    let length = end.saturating_sub(byte);
    Ok(Some(Edit { byte, length, text }))
}

/// The `pre` in an expression from which a nil comes; the first alone, where it may also come from a variable.
fn memories_in<'t>(
    given: Given<'_, 't>,
    whole: &'t Expr,
    first: &'t Expr,
) -> Result<Vec<&'t Expr>, AllocError> {
    let mut memories = Vec::new(given.alloc);
    let mut places = Vec::new(given.alloc);
    memories.push(first)?;
    places.push(start_of(first).byte)?;
    for _turn in 1..MOST_STEPS {
        match given.flags.origin_beside(&places, whole) {
            Some(origin) if !matches!(origin.expr, Expr::Name(_)) => {
                memories.push(origin.expr)?;
                places.push(start_of(origin.expr).byte)?;
            }
            Some(_) => {
                memories.truncate(1);
                return Ok(memories);
            }
            None => return Ok(memories),
        }
    }
    Ok(memories)
}

/// Whether an expression is written before `->` as it stands: a name or a value.
fn is_plain(expr: &Expr) -> bool {
    matches!(expr, Expr::Name(_) | Expr::Number(_, _) | Expr::Truth(_, _))
}

/// Whether two spans are one.
fn is_same(one: Span, other: Span) -> bool {
    one.start.byte == other.start.byte && one.length == other.length
}

/// Whether a span lies in another one.
fn is_within(inner: Span, outer: Span) -> bool {
    outer.start.byte <= inner.start.byte && inner.end().byte <= outer.end().byte
}

/// How `pre x -> 0` is written with its first value on the left, where the `pre` at a span is the left side of such an arrow, or stands in
/// it before a value that is always the same.
fn turned(given: Given<'_, '_>, span: Span) -> Result<Option<Edit>, AllocError> {
    for equation in &given.flags.node.equations {
        for expr in &expressions_in(given.alloc, &equation.right)? {
            if let Expr::Binary(Infix::Arrow, left, right) = *expr {
                let side = extent_of(given.source, left);
                let is_first = is_same(side, span) && is_plain(right)
                    || is_within(span, side) && is_fixed(given.flags.node, right);
                if is_first {
                    let sides = Exchanged {
                        expr: *expr,
                        operator: "->",
                        left,
                        right,
                    };
                    return Ok(Some(sides.edit(given.alloc, given.source)?));
                }
            }
        }
    }
    Ok(None)
}

/// Whether a span is the operand of one `pre` behind another that an expression begins with.
fn is_remembered(given: Given<'_, '_>, expr: &Expr, span: Span) -> bool {
    let mut at = expr;
    for _step in 0..MOST_STEPS {
        match at {
            Expr::Parentheses(_, operand) | Expr::Unary(Prefix::Pre, _, operand) => at = operand,
            _ => return false,
        }
        if is_same(extent_of(given.source, at), span) {
            return true;
        }
    }
    false
}

/// The first value that stands before the `->` behind which the `pre` at a span is remembered again, as `x` in `x -> pre pre x`.
fn first_before<'t>(given: Given<'_, 't>, span: Span) -> Result<Option<&'t Expr>, AllocError> {
    for equation in &given.flags.node.equations {
        for expr in &expressions_in(given.alloc, &equation.right)? {
            if let Expr::Binary(Infix::Arrow, left, right) = *expr
                && is_plain(left)
                && is_remembered(given, right, span)
            {
                return Ok(Some(left));
            }
        }
    }
    Ok(None)
}

/// How a `pre` at a span is written with the first value that stands before the `->` behind which it is remembered again.
fn repeated(given: Given<'_, '_>, span: Span) -> Result<Option<Edit>, AllocError> {
    let Some(first) = first_before(given, span)? else {
        return Ok(None);
    };
    let first = slice_of(given.source, extent_of(given.source, first));
    let mut text = String::new(given.alloc);
    push_written(given, &mut text, first, span)?;
    Ok(Some(Edit {
        byte: span.start.byte,
        length: span.length,
        text,
    }))
}

/// Adds how the `pre` at a span is written with a first value that the source has already, and whether there is one.
fn add_known(given: Given<'_, '_>, span: Span, finding: &mut Finding) -> Result<bool, AllocError> {
    let (edit, note) = match turned(given, span)? {
        Some(edit) => (Some(edit), "The first value stands on the left of `->`."),
        None => (
            repeated(given, span)?,
            "The first value here is that of the `->` before it.",
        ),
    };
    if edit.is_none() {
        return Ok(false);
    }
    finding.edit = edit;
    finding.note = Some(String::from_str(given.alloc, note)?);
    Ok(true)
}

/// Adds the `pre` in an expression that have no first value, and how they would be written.
fn add_memories<'t>(
    given: Given<'_, 't>,
    whole: &'t Expr,
    first: &'t Expr,
    finding: &mut Finding,
) -> Result<(), AllocError> {
    let memories = memories_in(given, whole, first)?;
    for memory in &memories {
        let span = extent_of(given.source, memory);
        let text = slice_of(given.source, span);
        let label = format!(in given.alloc; "`{text}` has no value at the first instant")?;
        finding.relate(span, label)?;
    }
    if add_known(given, extent_of(given.source, first), finding)? {
        return Ok(());
    }
    finding.edit = edit_of(given, &memories)?;
    Ok(())
}

/// Adds a step of a way: a variable, whose right side the way goes on with, or each `pre` at the end.
fn add_step<'t>(
    given: Given<'_, 't>,
    whole: &'t Expr,
    expr: &'t Expr,
    finding: &mut Finding,
) -> Result<Option<&'t Expr>, AllocError> {
    if let Expr::Name(name) = expr {
        let text = name.text.as_str();
        let label = format!(in given.alloc; "`{text}` may have no value at the first instant")?;
        finding.relate(name.span, label)?;
        return Ok(given.flags.right_of(text));
    }
    add_memories(given, whole, expr, finding)?;
    Ok(None)
}

/// The note on a way, which may go through a branch, and on a first value in the change that is told.
fn note_on(is_computed: bool, is_given: bool) -> &'static str {
    match (is_computed, is_given) {
        (true, true) =>
            "Both branches of an `if` are computed at every instant, the first one included. Choose the first value: the one here is a placeholder.",
        (true, false) =>
            "Both branches of an `if` are computed at every instant, the first one included.",
        (false, true) => "Choose the first value: the one here is a placeholder.",
        (false, false) => "",
    }
}

/// Adds the way from an expression to the `pre` without a first value, and how that would be written with one.
pub fn add_way<'t>(
    given: Given<'_, 't>,
    from: &'t Expr,
    finding: &mut Finding,
) -> Result<(), AllocError> {
    let mut current = Some(from);
    let mut is_computed = false;
    for _step in 0..MOST_STEPS {
        let Some(expr) = current else {
            break;
        };
        let Some(origin) = given.flags.origin(expr) else {
            break;
        };
        is_computed = is_computed || origin.is_computed;
        current = add_step(given, expr, origin.expr, finding)?;
    }
    let note = note_on(
        is_computed,
        finding.note.is_none() && finding.edit.is_some(),
    );
    if !note.is_empty() {
        finding.note = Some(String::from_str(given.alloc, note)?);
    }
    Ok(())
}
