//! What is shown within lines: the clocks of equations, and the inputs that arguments are given to.

use crate::context::{Reader, equations_before, input_of};
use crate::places::{Lines, Spot, lines_of};
use lus_diagnostics::push_string;
use lus_occurrences::{Clock, Names, Use, names_of};
use lus_syntax::{Symbol, Token, TokenKind};
use std::alloc::{AllocError, Global};

/// A clock as it is written.
fn clock_text(alloc: Global, clock: Clock<'_>) -> Result<String, AllocError> {
    let Clock { label, variable } = clock;
    match label {
        "true" => format!(in alloc; "when {variable}"),
        "false" => format!(in alloc; "when not {variable}"),
        _ => format!(in alloc; "when {label}({variable})"),
    }
}

/// Appends a hint at a byte, behind others or as the first: of a clock (1), before which a blank is shown, or of an input (2), behind
/// which one is.
fn push_hint(
    alloc: Global,
    text: &mut String,
    lines: &Lines<'_>,
    byte: usize,
    label: &str,
    kind: u8,
) -> Result<(), AllocError> {
    text.push_str(if text.len() > 1 {
        ",{\"label\":"
    } else {
        "{\"label\":"
    })?;
    push_string(alloc, text, label)?;
    let Spot { line, character } = lines.spot(byte);
    let side = if kind == 1 {
        "paddingLeft"
    } else {
        "paddingRight"
    };
    write!(
        text,
        ",\"kind\":{kind},\"{side}\":true,\"position\":{{\"line\":{line},\"character\":{character}}}}}"
    )
}

/// Appends the clock of a name on the left of an equation, if it isn't the base clock.
fn push_clock(
    alloc: Global,
    text: &mut String,
    lines: &Lines<'_>,
    names: &Names<'_>,
    place: usize,
    token: Token<'_>,
) -> Result<(), AllocError> {
    if let Some(occurrence) = names.occurrence_of(place)
        && occurrence.usage == Use::Definition
        && let Some(clock) = names.clock_of(occurrence.declaration)
    {
        let label = clock_text(alloc, clock)?;
        push_hint(alloc, text, lines, token.span.end().byte, label.as_str(), 1)?;
    }
    Ok(())
}

/// The name of the input that an argument which begins with a token is given to, unless the argument is of this name or there is none.
fn input_before<'t>(
    names: &Names<'t>,
    reader: &Reader<'t>,
    before: Token<'_>,
    next: Token<'_>,
) -> Option<&'t str> {
    if !matches!(
        before.kind,
        TokenKind::Punctuation(Symbol::Open | Symbol::Comma)
    ) {
        return None;
    }
    let name = names.name(input_of(names, reader.argument()?)?);
    match next.kind {
        TokenKind::Punctuation(Symbol::Close | Symbol::Comma) => None,
        TokenKind::Identifier(text) if text == name => None,
        _ => Some(name),
    }
}

/// What is shown within the lines between two spots (`InlayHint`): of each name on the left of an equation its clock, unless it is the base
/// clock, and before each argument of a call the input's name, unless the argument begins with it.
pub fn inlay_hints(
    alloc: Global,
    source: &str,
    from: Spot,
    to: Spot,
) -> Result<String, AllocError> {
    let lines = lines_of(alloc, source)?;
    let names = names_of(alloc, source)?;
    let (first, last) = (lines.byte_at(from), lines.byte_at(to));
    let mut text = String::from_str(alloc, "[")?;
    let mut reader = Reader::new(alloc);
    let shown = names
        .tokens
        .partition_point(|token| token.span.start.byte < first);
    let end = names
        .tokens
        .partition_point(|token| token.span.start.byte <= last);
    let mut place = equations_before(&names.tokens, shown);
    for token in names.tokens.get(place..end).unwrap_or(&[]) {
        reader.pass(&names, place, *token)?;
        if place >= shown {
            push_clock(alloc, &mut text, &lines, &names, place, *token)?;
        }
        place = place.saturating_add(1);
        if place >= shown
            && let Some(next) = names.tokens.get(place)
            && let Some(name) = input_before(&names, &reader, *token, *next)
        {
            let label = format!(in alloc; "{name}:")?;
            push_hint(
                alloc,
                &mut text,
                &lines,
                next.span.start.byte,
                label.as_str(),
                2,
            )?;
        }
    }
    text.push_str("]")?;
    Ok(text)
}
