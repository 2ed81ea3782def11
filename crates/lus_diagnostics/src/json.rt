//! What there is to say as lines of JSON, an object on each.

use crate::diagnostic::{Code, Diagnostic, Site};
use crate::quoting::push_string;
use lus_faults::{Edit, Position};
use lus_syntax::{Cycle, Place, Span};
use std::alloc::{AllocError, Global};

/// The position of a byte of a source, which is found from a place before it, or else from the start.
fn position_at(source: &str, from: Place, byte: usize) -> Position {
    let from = if from.byte > byte { Place::START } else { from };
    let Place { line, column, .. } = from;
    let mut at = Position { line, column };
    let end = byte.min(source.len());
    for byte in source.as_bytes().get(from.byte..end).unwrap_or(&[]) {
        if *byte == b'\n' {
            at.line = at.line.saturating_add(1);
            at.column = 1;
        } else if *byte < 128 || *byte >= 192 {
            at.column = at.column.saturating_add(1);
        }
    }
    at
}

/// Appends a position behind its name.
fn push_position(text: &mut String, name: &str, at: Position) -> Result<(), AllocError> {
    let Position { line, column } = at;
    write!(text, "\"{name}\":{{\"line\":{line},\"column\":{column}}}")
}

/// Appends where something begins and ends.
fn push_range(text: &mut String, start: Position, end: Position) -> Result<(), AllocError> {
    push_position(text, "start", start)?;
    text.push_str(",")?;
    push_position(text, "end", end)
}

/// Appends where a span begins and ends.
fn push_span(text: &mut String, source: &str, span: Span) -> Result<(), AllocError> {
    let Place { line, column, byte } = span.start;
    let end = position_at(source, span.start, byte.saturating_add(span.length));
    push_range(text, Position { line, column }, end)
}

/// Appends the variables of a cycle.
fn push_cycle(alloc: Global, text: &mut String, cycle: &Cycle) -> Result<(), AllocError> {
    text.push_str(",\"cycle\":[")?;
    for (place, name) in cycle.names().iter().enumerate() {
        if place > 0 {
            text.push_str(",")?;
        }
        push_string(alloc, text, name.as_str())?;
    }
    text.push_str("]")
}

/// Appends the further places, and what is there.
fn push_places(
    alloc: Global,
    text: &mut String,
    source: &str,
    told: &Diagnostic,
) -> Result<(), AllocError> {
    text.push_str(",\"related\":[")?;
    for (place, related) in told.related.iter().enumerate() {
        text.push_str(if place > 0 { ",{" } else { "{" })?;
        push_span(text, source, related.span)?;
        text.push_str(",\"message\":")?;
        push_string(alloc, text, related.label.as_str())?;
        text.push_str("}")?;
    }
    text.push_str("]")
}

/// Appends the change of the text, if there is one, which stands behind a place or is looked for from the start.
fn push_edit(
    alloc: Global,
    text: &mut String,
    source: &str,
    from: Place,
    edit: Option<&Edit>,
) -> Result<(), AllocError> {
    let Some(edit) = edit else {
        return text.push_str(",\"suggestion\":null");
    };
    let start = position_at(source, from, edit.byte);
    let end = position_at(source, from, edit.byte.saturating_add(edit.length));
    text.push_str(",\"suggestion\":{")?;
    push_range(text, start, end)?;
    text.push_str(",\"text\":")?;
    push_string(alloc, text, edit.text.as_str())?;
    text.push_str("}")
}

/// Appends the members of what is said of a program: its position, where it begins and ends, the cycle, further places, the note, the change,
/// and the documents' section.
fn push_members(
    alloc: Global,
    text: &mut String,
    source: &str,
    told: &Diagnostic,
) -> Result<(), AllocError> {
    let span = told.span(source);
    text.push_str(",")?;
    push_position(text, "position", told.place)?;
    text.push_str(",")?;
    push_span(text, source, span)?;
    push_cycle(alloc, text, &told.cycle)?;
    push_places(alloc, text, source, told)?;
    text.push_str(",\"note\":")?;
    match &told.note {
        Some(note) => push_string(alloc, text, note.as_str())?,
        None => text.push_str("null")?,
    }
    push_edit(alloc, text, source, span.start, told.edit.as_ref())?;
    let section = told.code.section().unwrap_or("");
    write!(text, ",\"docs\":\"docs/ERRORS.md#{section}\"")
}

/// Appends the number or the name, and what it is unless it is an error.
fn push_code(text: &mut String, code: Code) -> Result<(), AllocError> {
    let name = code.as_str();
    let severity = code.severity();
    if !name.is_empty() {
        write!(text, ",\"number\":\"{name}\"")?;
    }
    match code {
        Code::Error(_) | Code::Scripts(_) => Ok(()),
        Code::Warning(_) | Code::Note => write!(text, ",\"severity\":\"{severity}\""),
    }
}

/// Appends an object, on a line of its own.
fn push_object(
    alloc: Global,
    text: &mut String,
    file: &str,
    source: &str,
    told: &Diagnostic,
) -> Result<(), AllocError> {
    text.push_str("{\"file\":")?;
    push_string(alloc, text, file)?;
    push_code(text, told.code)?;
    text.push_str(",\"message\":")?;
    push_string(alloc, text, told.message.as_str())?;
    match &told.site {
        Site::Program { .. } => push_members(alloc, text, source, told)?,
        Site::Scripts(at) => {
            text.push_str(",")?;
            push_range(text, *at, *at)?;
        }
        Site::Json(key) => write!(text, ",\"place\":\"{key}\"")?,
        Site::File => {}
    }
    text.push_str("}\n")
}

/// Appends what there is to say of a source in the file of this name, each on a line: its number or name, a sentence, where it begins and
/// ends, and what else is known of it.
pub fn push_lines(
    alloc: Global,
    text: &mut String,
    file: &str,
    source: &str,
    all: &[Diagnostic],
) -> Result<(), AllocError> {
    for told in all {
        push_object(alloc, text, file, source, told)?;
    }
    Ok(())
}
