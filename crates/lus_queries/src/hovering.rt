//! What is shown of the name at a spot.

use crate::comments::comment_of;
use crate::places::{Lines, Spot, lines_of, push_span};
use lus_diagnostics::push_string;
use lus_faults::slice_of;
use lus_occurrences::{Names, names_of};
use lus_syntax::{Place, Span};
use std::alloc::{AllocError, Global};

/// What a declaration doesn't say of its name: of a variable whether it may be nil at the first instant of its clock, of a node its state
/// size.
#[derive(Clone, Copy)]
pub enum Fact {
    MayBeNil(bool),
    Cells(u32),
}

/// An expression where it stands, with its type and, on another clock than the base, its clock, as they are written behind a colon.
#[derive(Drop)]
pub struct Judged {
    pub span: Span,
    pub said: String,
}

/// Where the name at a spot is declared; nothing where no name stands that is.
pub fn declared_at(alloc: Global, source: &str, at: Spot) -> Result<Option<Place>, AllocError> {
    let byte = lines_of(alloc, source)?.byte_at(at);
    let names = names_of(alloc, source)?;
    Ok(declared_of(&names, byte))
}

/// Where the name at a byte is declared.
fn declared_of(names: &Names<'_>, byte: usize) -> Option<Place> {
    let occurrence = names.occurrence_at(byte)?;
    let declaration = names.declarations.get(occurrence.declaration)?;
    Some(names.span_of(declaration.token)?.start)
}

/// Appends a fact, as a paragraph of its own.
fn push_fact(text: &mut String, fact: Fact) -> Result<(), AllocError> {
    match fact {
        Fact::MayBeNil(false) => text.push_str("\n\nNever nil."),
        Fact::MayBeNil(true) => text.push_str("\n\nPerhaps nil at the first instant of its clock."),
        Fact::Cells(1) => text.push_str("\n\nState size: 1 cell."),
        Fact::Cells(cells) => write!(text, "\n\nState size: {cells} cells."),
    }
}

/// What is shown of a declaration, in Markdown: what it says, the comments above it, and a fact.
fn shown(
    alloc: Global,
    said: &str,
    comment: &str,
    fact: Option<Fact>,
) -> Result<String, AllocError> {
    let mut text = format!(in alloc; "```lus\n{said}\n```")?;
    if !comment.is_empty() {
        write!(text, "\n\n{comment}")?;
    }
    if let Some(fact) = fact {
        push_fact(&mut text, fact)?;
    }
    Ok(text)
}

/// Something that is shown in Markdown of a span (`Hover`).
fn hover_of(
    alloc: Global,
    lines: &Lines<'_>,
    shown: &str,
    span: Span,
) -> Result<String, AllocError> {
    let mut text = String::from_str(alloc, "{\"contents\":{\"kind\":\"markdown\",\"value\":")?;
    push_string(alloc, &mut text, shown)?;
    text.push_str("},\"range\":")?;
    push_span(&mut text, lines, span)?;
    text.push_str("}")?;
    Ok(text)
}

/// The most bytes of an expression that are shown before its type.
const MOST_SHOWN: usize = 80;

/// The type and the clock of an expression (`Hover`), behind its text where that is short and on one line.
pub fn expression_hover(
    alloc: Global,
    source: &str,
    judged: &Judged,
) -> Result<String, AllocError> {
    let lines = lines_of(alloc, source)?;
    let text = slice_of(source, judged.span);
    let said = &judged.said;
    let shown = if text.len() > MOST_SHOWN || text.as_bytes().contains(&b'\n') {
        format!(in alloc; "```lus\n{said}\n```")?
    } else {
        format!(in alloc; "```lus\n{text}: {said}\n```")?
    };
    hover_of(alloc, &lines, shown.as_str(), judged.span)
}

/// The declaration of the name at a spot: of a variable its type and its clock, of a node its inputs and outputs; what the comments above
/// it say; and the fact (`Hover`); null where no name stands that is declared.
pub fn hover(
    alloc: Global,
    source: &str,
    at: Spot,
    fact: Option<Fact>,
) -> Result<String, AllocError> {
    let lines = lines_of(alloc, source)?;
    let names = names_of(alloc, source)?;
    let Some(occurrence) = names.occurrence_at(lines.byte_at(at)) else {
        return String::from_str(alloc, "null");
    };
    let Some(span) = names.span_of(occurrence.token) else {
        return String::from_str(alloc, "null");
    };
    let said = names.description(alloc, source, occurrence.declaration)?;
    let comment = comment_of(alloc, source, &names, occurrence.declaration)?;
    let shown = shown(alloc, said.as_str(), comment.as_str(), fact)?;
    hover_of(alloc, &lines, shown.as_str(), span)
}
