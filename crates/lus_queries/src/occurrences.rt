//! What the name at a spot stands for, and where else it stands.

use crate::places::{Lines, Spot, lines_of, push_span};
use lus_diagnostics::push_string;
use lus_occurrences::{Names, Use, names_of};
use lus_syntax::Span;
use std::alloc::{AllocError, Global};

/// Where the name of a declaration stands, and the names that stand for it, if the name at a spot does.
pub(crate) fn spans_at(
    alloc: Global,
    lines: &Lines<'_>,
    names: &Names<'_>,
    at: Spot,
) -> Result<Option<Vec<(Span, Use)>>, AllocError> {
    match names.occurrence_at(lines.byte_at(at)) {
        Some(occurrence) => Ok(Some(names.spans_of(alloc, occurrence.declaration)?)),
        None => Ok(None),
    }
}

/// Appends where a token stands in a document (`Location`).
fn push_location(
    alloc: Global,
    text: &mut String,
    uri: &str,
    lines: &Lines<'_>,
    span: Span,
) -> Result<(), AllocError> {
    text.push_str("{\"uri\":")?;
    push_string(alloc, text, uri)?;
    text.push_str(",\"range\":")?;
    push_span(text, lines, span)?;
    text.push_str("}")
}

/// The protocol's number of a use: a declaration is text, what stands on the left of an equation is written, and others are read.
fn highlight_kind(usage: Use) -> u8 {
    match usage {
        Use::Declaration => 1,
        Use::Reference => 2,
        Use::Definition => 3,
    }
}

/// Appends where a token stands, and how it is used (`DocumentHighlight`).
fn push_highlight(
    text: &mut String,
    lines: &Lines<'_>,
    span: Span,
    usage: Use,
) -> Result<(), AllocError> {
    let kind = highlight_kind(usage);
    text.push_str("{\"range\":")?;
    push_span(text, lines, span)?;
    write!(text, ",\"kind\":{kind}}}")
}

/// Where the name at a spot of a document is declared (`Location`); null where no name stands that is.
pub fn definition(alloc: Global, source: &str, uri: &str, at: Spot) -> Result<String, AllocError> {
    let lines = lines_of(alloc, source)?;
    let names = names_of(alloc, source)?;
    let found = spans_at(alloc, &lines, &names, at)?;
    let declared = match &found {
        Some(spans) => spans.first().copied(),
        None => None,
    };
    let Some((span, _)) = declared else {
        return String::from_str(alloc, "null");
    };
    let mut text = String::new(alloc);
    push_location(alloc, &mut text, uri, &lines, span)?;
    Ok(text)
}

/// Where the names of a document stand that stand for the same as the one at a spot (`Location`), with the declaration or without it;
/// null where no name stands that is declared.
pub fn references(
    alloc: Global,
    source: &str,
    uri: &str,
    at: Spot,
    has_declaration: bool,
) -> Result<String, AllocError> {
    let lines = lines_of(alloc, source)?;
    let names = names_of(alloc, source)?;
    let Some(spans) = spans_at(alloc, &lines, &names, at)? else {
        return String::from_str(alloc, "null");
    };
    let mut text = String::from_str(alloc, "[")?;
    let mut is_first = true;
    for (span, usage) in &spans {
        if has_declaration || *usage != Use::Declaration {
            if !is_first {
                text.push_str(",")?;
            }
            push_location(alloc, &mut text, uri, &lines, *span)?;
            is_first = false;
        }
    }
    text.push_str("]")?;
    Ok(text)
}

/// Where the names of a text stand that stand for the same as the one at a spot, and how each is used (`DocumentHighlight`); null where
/// no name stands that is declared.
pub fn highlights(alloc: Global, source: &str, at: Spot) -> Result<String, AllocError> {
    let lines = lines_of(alloc, source)?;
    let names = names_of(alloc, source)?;
    let Some(spans) = spans_at(alloc, &lines, &names, at)? else {
        return String::from_str(alloc, "null");
    };
    let mut text = String::from_str(alloc, "[")?;
    let mut is_first = true;
    for (span, usage) in &spans {
        if !is_first {
            text.push_str(",")?;
        }
        push_highlight(&mut text, &lines, *span, *usage)?;
        is_first = false;
    }
    text.push_str("]")?;
    Ok(text)
}
