//! What there is to say as a text for people, which cites the lines of the source, with carets under what is meant.

use crate::citing::{push_cited, push_marked};
use crate::diagnostic::{Diagnostic, Site};
use lus_faults::{Edit, Lines, Position, bytes_at, lines_of, place_at};
use lus_syntax::Place;
use std::alloc::{AllocError, Global};

/// The most that are shown with their lines.
const MOST_TOLD: usize = 20;

/// Appends a line, with marks under so many bytes from a column on; nothing of an empty line.
fn push_line(
    alloc: Global,
    text: &mut String,
    lines: &Lines<'_>,
    start: Position,
    length: usize,
) -> Result<(), AllocError> {
    match lines.line(start.line) {
        Some(line) if !line.is_empty() => push_marked(alloc, text, line, start.column, length),
        _ => Ok(()),
    }
}

/// Where the line begins that a byte stands on.
fn line_start(bytes: &[u8], byte: usize) -> usize {
    for (back, found) in bytes.get(..byte).unwrap_or(&[]).iter().rev().enumerate() {
        if *found == b'\n' {
            return byte.saturating_sub(back);
        }
    }
    0
}

/// Where the line ends that a byte stands on.
fn line_end(bytes: &[u8], byte: usize) -> usize {
    for (further, found) in bytes.get(byte..).unwrap_or(&[]).iter().enumerate() {
        if *found == b'\n' {
            return byte.saturating_add(further);
        }
    }
    bytes.len()
}

/// Appends which lines a change is on, where they aren't the one that is cited.
fn push_lines(
    text: &mut String,
    source: &str,
    edit: &Edit,
    cited: usize,
) -> Result<(), AllocError> {
    let first = place_at(source, edit.byte).line;
    let last = place_at(source, edit.byte.saturating_add(edit.length)).line;
    if first == cited && last == cited {
        text.push_str("write:\n")
    } else if first == last {
        write!(text, "write (line {first}):\n")
    } else {
        write!(text, "write (lines {first} to {last}):\n")
    }
}

/// Appends how the lines would read that a change is on, with their numbers where they aren't the one that is cited; of each what is
/// shown of it round the change or else from its first column.
fn push_edit(
    alloc: Global,
    text: &mut String,
    source: &str,
    edit: &Edit,
    cited: usize,
) -> Result<(), AllocError> {
    let bytes = source.as_bytes();
    let behind = edit.byte.saturating_add(edit.length);
    let (Some(front), Some(rest)) = (
        bytes_at(source, line_start(bytes, edit.byte), edit.byte),
        bytes_at(source, behind, line_end(bytes, behind)),
    ) else {
        return Ok(());
    };
    let written = &edit.text;
    let lines = format!(in alloc; "{front}{written}{rest}")?;
    push_lines(text, source, edit, cited)?;
    let mut column = front.chars().count().saturating_add(1);
    for line in lines.split('\n') {
        push_cited(alloc, text, line, column)?;
        column = 1;
    }
    Ok(())
}

/// Appends a position.
fn push_position(text: &mut String, at: Position) -> Result<(), AllocError> {
    let Position { line, column } = at;
    write!(text, ":{line}:{column}")
}

/// Appends where something is, what it is, and its sentence.
fn push_head(text: &mut String, name: &str, told: &Diagnostic) -> Result<(), AllocError> {
    text.push_str(name)?;
    match &told.site {
        Site::Program { start, .. } => push_position(text, *start)?,
        Site::Scripts(at) => push_position(text, *at)?,
        Site::Json(key) => write!(text, ": {key}")?,
        Site::File => {}
    }
    let severity = told.code.severity();
    let code = told.code.as_str();
    let blank = if code.is_empty() { "" } else { " " };
    let message = &told.message;
    write!(text, ": {severity}{blank}{code}: {message}\n")
}

/// Appends something, by the lines of its source: behind its sentence the line with marks, the variables of a cycle, further places, the
/// note, and how the text would read after its change.
fn push_diagnostic(
    alloc: Global,
    text: &mut String,
    name: &str,
    source: &str,
    lines: &Lines<'_>,
    told: &Diagnostic,
) -> Result<(), AllocError> {
    push_head(text, name, told)?;
    if let Site::Program { start, length, .. } = &told.site {
        push_line(alloc, text, lines, *start, *length)?;
    }
    let cycle = &told.cycle;
    if !cycle.names().is_empty() {
        write!(text, "{cycle}\n")?;
    }
    for related in &told.related {
        let Place { line, column, .. } = related.span.start;
        let label = &related.label;
        write!(text, "{name}:{line}:{column}: note: {label}\n")?;
        let length = related.span.length;
        push_line(alloc, text, lines, Position { line, column }, length)?;
    }
    if let Some(note) = &told.note {
        write!(text, "{note}\n")?;
    }
    let cited = match &told.site {
        Site::Program { start, .. } => start.line,
        _ => 0,
    };
    match &told.edit {
        Some(edit) => push_edit(alloc, text, source, edit, cited),
        None => Ok(()),
    }
}

/// Appends which sections of the documents say more: each once, in the order of what was said.
fn push_sections(text: &mut String, all: &[Diagnostic]) -> Result<(), AllocError> {
    for (place, told) in all.iter().enumerate() {
        let Some(section) = told.code.section() else {
            return Ok(());
        };
        let before = all.get(..place).unwrap_or(&[]);
        if before
            .iter()
            .all(|other| other.code.section() != Some(section))
        {
            let front = if place == 0 {
                "\nSee docs/ERRORS.md#"
            } else {
                ", #"
            };
            write!(text, "{front}{section}")?;
        }
    }
    text.push_str(".\n")
}

/// Appends how many aren't shown.
fn push_rest(text: &mut String, all: usize) -> Result<(), AllocError> {
    match all.saturating_sub(MOST_TOLD) {
        0 => Ok(()),
        1 => text.push_str("\nThere is 1 more warning.\n"),
        more => write!(text, "\nThere are {more} more warnings.\n"),
    }
}

/// Appends the first 20 things that there are to say of the file of this name, of a program each behind an empty line, but at the start
/// of the text, and with its line; how many more there are; and where the documents say more. Where there are none it appends nothing.
pub fn push_report(
    alloc: Global,
    text: &mut String,
    name: &str,
    source: &str,
    all: &[Diagnostic],
) -> Result<(), AllocError> {
    if all.is_empty() {
        return Ok(());
    }
    let lines = lines_of(alloc, source)?;
    for told in all.iter().take(MOST_TOLD) {
        match &told.site {
            Site::Program { .. } if !text.is_empty() => text.push_str("\n")?,
            _ => {}
        }
        push_diagnostic(alloc, text, name, source, &lines, told)?;
    }
    push_rest(text, all.len())?;
    push_sections(text, all)
}
