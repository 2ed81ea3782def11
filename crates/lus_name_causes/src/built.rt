//! What other languages have built in, as Lustre writes it.

use crate::calling::{Call, call_of, calls_in};
use crate::given::Given;
use lus_faults::{Edit, expressions_in, extent_of, joined, slice_of, start_of};
use lus_syntax::{Expr, Name, Node, Part};
use std::alloc::AllocError;

/// What is said of a function that other languages have, and how a call of it is written, where that is known: a digit in it stands for an
/// argument.
pub fn built(text: &str) -> Option<(&'static str, &'static str)> {
    match text {
        "abs" => Some((
            "It is not built in: write `if a < 0 then -a else a`, or declare a node of this name.",
            "if $1 < 0 then -$1 else $1",
        )),
        "max" => Some((
            "It is not built in: write `if a < b then b else a`, or declare a node of this name.",
            "if $1 < $2 then $2 else $1",
        )),
        "min" => Some((
            "It is not built in: write `if a < b then a else b`, or declare a node of this name.",
            "if $1 < $2 then $1 else $2",
        )),
        "rising" | "rising_edge" | "redge" | "edge" => Some((
            "It is not built in: write `a and not (false -> pre a)`, or declare a node of this name.",
            "$1 and not (false -> pre $1)",
        )),
        "falling" | "falling_edge" | "fedge" => Some((
            "It is not built in: write `not a and (false -> pre a)`, or declare a node of this name.",
            "not $1 and (false -> pre $1)",
        )),
        "delay" => Some((
            "It is not built in: write `0 fby a`, with a first value of the type of `a`.",
            "",
        )),
        "clamp" | "limit" | "limiter" | "sat" | "saturate" | "saturation" => Some((
            "It is not built in: write `if a < low then low else if a > high then high else a`, or declare a node of this name.",
            "",
        )),
        "count" | "counter" => Some((
            "It is not built in: write `n = 0 -> if c then pre n + 1 else pre n;`, or declare a node of this name.",
            "",
        )),
        "sum" | "integral" => Some((
            "It is not built in: write `s = (0 -> pre s) + a;`, or declare a node of this name.",
            "",
        )),
        _ => None,
    }
}

/// The most bytes of an argument that is written several times.
const MOST_BYTES: usize = 40;

/// Whether an expression has no call in it, and is short and on one line.
fn is_short(given: Given<'_>, expr: &Expr) -> Result<bool, AllocError> {
    for inner in &expressions_in(given.alloc, expr)? {
        if matches!(**inner, Expr::Call(_, _)) {
            return Ok(false);
        }
    }
    let text = slice_of(given.source, extent_of(given.source, expr));
    Ok(text.len() <= MOST_BYTES && !text.contains("\n"))
}

/// The text of an argument that may be written several times, and whether it needs parentheses for that.
fn argument_in<'t>(
    given: Given<'t>,
    parts: &[Part],
    number: usize,
) -> Result<Option<(&'t str, bool)>, AllocError> {
    let Some(part) = parts.get(number) else {
        return Ok(None);
    };
    if !is_short(given, &part.value)? {
        return Ok(None);
    }
    let text = slice_of(given.source, extent_of(given.source, &part.value));
    let is_plain = matches!(
        part.value,
        Expr::Name(_) | Expr::Number(_, _) | Expr::Truth(_, _) | Expr::Parentheses(_, _)
    );
    Ok(Some((text, !is_plain)))
}

/// A text with arguments in the places of their digits, if all are short.
fn filled(given: Given<'_>, written: &str, parts: &[Part]) -> Result<Option<String>, AllocError> {
    let mut text = String::new(given.alloc);
    for (place, piece) in written.split('$').enumerate() {
        if place == 0 {
            text.push_str(piece)?;
            continue;
        }
        let (number, rest) = match piece.split_once('1') {
            Some(("", rest)) => (0, rest),
            _ => (1, piece.strip_prefix('2').unwrap_or("")),
        };
        let Some((argument, is_enclosed)) = argument_in(given, parts, number)? else {
            return Ok(None);
        };
        if is_enclosed {
            write!(text, "({argument})")?;
        } else {
            text.push_str(argument)?;
        }
        text.push_str(rest)?;
    }
    Ok(Some(text))
}

/// How many arguments a text has.
fn count_in(written: &str) -> usize {
    if written.contains("$2") { 2 } else { 1 }
}

/// The change of a call into what it computes, as it is written; nothing where it has another count of arguments, or one is long, or a
/// call.
fn computed(given: Given<'_>, call: Call<'_>, written: &str) -> Result<Option<Edit>, AllocError> {
    if written.is_empty() || call.parts.len() != count_in(written) {
        return Ok(None);
    }
    let Some(inner) = filled(given, written, call.parts)? else {
        return Ok(None);
    };
    let span = extent_of(given.source, call.expr);
    let is_whole = extent_of(given.source, &call.equation.right).length == span.length;
    let text = if is_whole {
        inner
    } else {
        format!(in given.alloc; "({inner})")?
    };
    Ok(Some(Edit {
        byte: span.start.byte,
        length: span.length,
        text,
    }))
}

/// The change of the call of a name in a node, and of all others of this name in its equation, into what they compute; nothing where that
/// one isn't changed.
pub fn built_edit(given: Given<'_>, node: &Node, name: &Name) -> Result<Option<Edit>, AllocError> {
    let (Some((_, written)), Some(call)) = (
        built(name.text.as_str()),
        call_of(given.alloc, node, name)?,
    ) else {
        return Ok(None);
    };
    let line = start_of(&call.equation.right).byte;
    let mut edits = Vec::new(given.alloc);
    let (mut end, mut is_changed) = (0, false);
    for other in &calls_in(given.alloc, node)? {
        let is_kin = start_of(&other.equation.right).byte == line
            && other.name.text.as_str() == name.text.as_str();
        if is_kin
            && let Some(edit) = computed(given, *other, written)?
            && edit.byte >= end
        {
            is_changed = is_changed || edit.byte == call.name.span.start.byte;
            end = edit.byte.saturating_add(edit.length);
            edits.push(edit)?;
        }
    }
    if is_changed {
        joined(given.alloc, given.source, &edits)
    } else {
        Ok(None)
    }
}
