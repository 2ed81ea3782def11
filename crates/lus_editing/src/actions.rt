//! Changes that mend faults, and what a text is warned of.

use crate::answers::Problem;
use crate::messages::{range_of, uri_of};
use crate::server::{Document, Server};
use lus_diagnostics::{Diagnostic, push_string};
use lus_faults::{Edit, edited, edited_lines};
use lus_queries::{Lines, Spot, lines_of, push_range};
use lus_syntax::Span;
use serde_json::Value;
use std::alloc::{AllocError, Global};

/// The first line that a change makes.
fn first_line(alloc: Global, source: &str, edit: &Edit) -> Result<String, AllocError> {
    let Some(changed) = edited(alloc, source, edit)? else {
        return Ok(String::new(alloc));
    };
    let lines = edited_lines(changed.as_str(), edit).unwrap_or("");
    match lines.trim().lines().next() {
        Some(line) => String::from_str(alloc, line.trim()),
        None => Ok(String::new(alloc)),
    }
}

/// Whether it is only guessed what is meant, as the note then says.
fn is_guess(told: &Diagnostic) -> bool {
    match &told.note {
        Some(note) => note.starts_with("Perhaps ") || note.starts_with("Did you mean "),
        None => false,
    }
}

/// Appends the action that makes a change of the document of a name. It is preferred unless it only guesses.
fn push_action(
    alloc: Global,
    text: &mut String,
    uri: &str,
    source: &str,
    lines: &Lines<'_>,
    edit: &Edit,
    is_guess: bool,
) -> Result<(), AllocError> {
    let line = first_line(alloc, source, edit)?;
    let title = format!(in alloc; "write: {line}")?;
    text.push_str("{\"title\":")?;
    push_string(alloc, text, title.as_str())?;
    let is_preferred = !is_guess;
    write!(
        text,
        ",\"kind\":\"quickfix\",\"isPreferred\":{is_preferred},\"edit\":{{\"changes\":{{"
    )?;
    push_string(alloc, text, uri)?;
    text.push_str(":[{\"range\":")?;
    push_range(
        text,
        lines,
        edit.byte,
        edit.byte.saturating_add(edit.length),
    )?;
    text.push_str(",\"newText\":")?;
    push_string(alloc, text, edit.text.as_str())?;
    text.push_str("}]}}}")
}

/// The bytes from the first line of a range to the end of its last one.
fn bytes_of(lines: &Lines<'_>, range: (Spot, Spot)) -> (usize, usize) {
    let (from, to) = range;
    let start = Spot {
        line: from.line,
        character: 0,
    };
    let end = Spot {
        line: to.line,
        character: usize::MAX,
    };
    (lines.byte_at(start), lines.byte_at(end))
}

/// Whether a span reaches between two bytes, or a change begins there.
fn is_near(span: Span, edit: &Edit, between: (usize, usize)) -> bool {
    let (from, to) = between;
    let byte = span.start.byte;
    let end = byte.saturating_add(span.length);
    (byte <= to && from <= end) || (from <= edit.byte && edit.byte <= to)
}

/// The actions that mend the errors of a document in a range, or what it is warned of.
fn actions_in(
    alloc: Global,
    uri: &str,
    document: &Document,
    range: (Spot, Spot),
) -> Result<String, AllocError> {
    let source = document.text.as_str();
    let lines = lines_of(alloc, source)?;
    let between = bytes_of(&lines, range);
    let mut text = String::from_str(alloc, "[")?;
    for told in document.diagnosis.told() {
        if let Some(edit) = &told.edit
            && is_near(told.span(source), edit, between)
        {
            if text.len() > 1 {
                text.push_str(",")?;
            }
            push_action(alloc, &mut text, uri, source, &lines, edit, is_guess(told))?;
        }
    }
    text.push_str("]")?;
    Ok(text)
}

/// The actions that mend what was found in the document and in the range that parameters name.
pub(crate) fn actions_of(
    alloc: Global,
    server: &Server,
    parameters: Option<&Value>,
) -> Result<Result<String, Problem>, AllocError> {
    let (Some(uri), Some(range)) = (parameters.and_then(uri_of), parameters.and_then(range_of))
    else {
        return Ok(Err(Problem::Parameters));
    };
    match server.document(uri) {
        Some(document) => Ok(Ok(actions_in(alloc, uri, document, range)?)),
        None => Ok(Err(Problem::Parameters)),
    }
}
