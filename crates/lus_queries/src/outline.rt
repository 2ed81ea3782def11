//! The outline of a text: what it declares, and which lines can be folded.

use crate::places::{Lines, lines_of, push_range, push_span};
use lus_diagnostics::push_string;
use lus_faults::slice_of;
use lus_occurrences::{Declaration, Declared, Names, names_of};
use lus_syntax::{Place, Span, Symbol, Token, TokenKind, Word};
use std::alloc::{AllocError, Global};

/// The protocol's number of a kind of symbol.
fn symbol_kind(declared: Declared) -> u8 {
    match declared {
        Declared::Node => 12,
        Declared::Type => 23,
        Declared::Constant => 14,
        Declared::Constructor => 22,
        Declared::Field => 8,
        Declared::Input | Declared::Output | Declared::Local => 13,
    }
}

/// Appends a token, behind a blank where something stands between it and the token before.
pub(crate) fn push_token(
    text: &mut String,
    source: &str,
    before: Option<Span>,
    span: Span,
) -> Result<(), AllocError> {
    if let Some(before) = before
        && before.end().byte < span.start.byte
    {
        text.push_str(" ")?;
    }
    text.push_str(slice_of(source, span))
}

/// Appends what tells a declaration, on one line and without comments. It has nothing that a string of JSON has to escape.
pub(crate) fn push_detail(
    text: &mut String,
    source: &str,
    names: &Names<'_>,
    declaration: usize,
) -> Result<(), AllocError> {
    let mut before = None;
    let (first, end) = names.told(declaration);
    for token in names.tokens.get(first..end).unwrap_or(&[]) {
        push_token(text, source, before, token.span)?;
        before = Some(token.span);
    }
    Ok(())
}

/// Whether a declaration of a node, a type or a constant begins with a token.
pub(crate) fn begins(token: &Token<'_>) -> bool {
    matches!(
        token.kind,
        TokenKind::Keyword(Word::Node | Word::Function | Word::Type | Word::Const)
    )
}

/// Whether a declaration ends with a token: a node with `tel`, another one with a semicolon outside of braces.
fn ends(declared: Declared, braces: usize, token: &Token<'_>) -> bool {
    match token.kind {
        TokenKind::Keyword(Word::Tel) => true,
        TokenKind::Punctuation(Symbol::Semicolon) => declared != Declared::Node && braces == 0,
        _ => false,
    }
}

/// How many braces are open behind a token, of which so many are open before it.
fn braces_behind(braces: usize, token: &Token<'_>) -> usize {
    match token.kind {
        TokenKind::Punctuation(Symbol::OpenBrace) => braces.saturating_add(1),
        TokenKind::Punctuation(Symbol::CloseBrace) => braces.saturating_sub(1),
        _ => braces,
    }
}

/// Where a declaration ends whose name is the first of these tokens.
fn end_of(declared: Declared, tokens: &[Token<'_>], start: Place) -> Place {
    let mut end = start;
    let mut braces = 0usize;
    for token in tokens {
        if begins(token) {
            return end;
        }
        end = token.span.end();
        if ends(declared, braces, token) {
            return end;
        }
        braces = braces_behind(braces, token);
    }
    end
}

/// Where the declaration of a name begins: with its name, or the word before it.
fn start_of(names: &Names<'_>, declaration: Declaration, name: Span) -> Place {
    match names.tokens.get(declaration.token.saturating_sub(1)) {
        Some(token) if begins(token) => token.span.start,
        _ => name.start,
    }
}

/// Where a declaration begins and ends. A part of another one is its name.
fn extent_of(names: &Names<'_>, declaration: Declaration, name: Span) -> (Place, Place) {
    if declaration.owner.is_some() {
        return (name.start, name.end());
    }
    let tokens = names.tokens.get(declaration.token..).unwrap_or(&[]);
    let start = start_of(names, declaration, name);
    (start, end_of(declaration.declared, tokens, start))
}

/// Appends the symbol of a declaration, but for its children and the brace that closes it.
fn push_symbol(
    text: &mut String,
    lines: &Lines<'_>,
    names: &Names<'_>,
    declaration: Declaration,
    span: Span,
) -> Result<(), AllocError> {
    let kind = symbol_kind(declaration.declared);
    let (start, end) = extent_of(names, declaration, span);
    write!(text, ",\"kind\":{kind},\"range\":")?;
    push_range(text, lines, start.byte, end.byte)?;
    text.push_str(",\"selectionRange\":")?;
    push_span(text, lines, span)
}

/// What stands before the next symbol: where no symbol is before it, behind one that has parts, and where parts begin.
fn separator(is_first: bool, is_part: bool, is_first_part: bool) -> &'static str {
    if is_part {
        if is_first_part { "" } else { "," }
    } else if is_first {
        ""
    } else {
        "]},"
    }
}

/// The symbols that a text declares: nodes, types and constants, with their parts below them (`DocumentSymbol`).
pub fn symbols(alloc: Global, source: &str) -> Result<String, AllocError> {
    let lines = lines_of(alloc, source)?;
    let names = names_of(alloc, source)?;
    let mut text = String::from_str(alloc, "[")?;
    let mut is_first = true;
    let mut is_first_part = true;
    for (place, declaration) in names.declarations.iter().enumerate() {
        let Some(span) = names.span_of(declaration.token) else {
            continue;
        };
        let is_part = declaration.owner.is_some();
        text.push_str(separator(is_first, is_part, is_first_part))?;
        text.push_str("{\"name\":")?;
        push_string(alloc, &mut text, names.name(place))?;
        text.push_str(",\"detail\":\"")?;
        push_detail(&mut text, source, &names, place)?;
        text.push_str("\"")?;
        push_symbol(&mut text, &lines, &names, *declaration, span)?;
        text.push_str(if is_part { "}" } else { ",\"children\":[" })?;
        is_first = false;
        is_first_part = !is_part;
    }
    text.push_str(if is_first { "]" } else { "]}]" })?;
    Ok(text)
}

/// The lines of a text that can be folded: those of each node, and of each type and constant of several lines (`FoldingRange`).
pub fn folds(alloc: Global, source: &str) -> Result<String, AllocError> {
    let lines = lines_of(alloc, source)?;
    let names = names_of(alloc, source)?;
    let mut text = String::from_str(alloc, "[")?;
    let mut is_first = true;
    for declaration in &names.declarations {
        let Some(span) = names.span_of(declaration.token) else {
            continue;
        };
        let (from, to) = extent_of(&names, *declaration, span);
        let start = lines.spot(from.byte).line;
        let end = lines.spot(to.byte).line;
        if start < end {
            let comma = if is_first { "" } else { "," };
            write!(text, "{comma}{{\"startLine\":{start},\"endLine\":{end}}}")?;
            is_first = false;
        }
    }
    text.push_str("]")?;
    Ok(text)
}
