//! Comments that end later than they were meant to, and take what stands in them out of the program.

use crate::fault::Fault;
use crate::words::{is_any, is_of_word};
use lus_faults::{Comment, Edit, Finding, comments_in, place_at};
use lus_syntax::{RefusalNumber, Span};
use std::alloc::{AllocError, Global};

/// What a comment holds that is no text: where the line is that begins a declaration or a part of one, or is an equation, that line, and
/// where another comment begins.
#[derive(Clone, Copy)]
struct Swallowed<'t> {
    line: Option<(usize, &'t str)>,
    opening: Option<usize>,
}

/// The words that begin declarations and their parts.
static OPENINGS: [&str; 7] = ["node", "function", "type", "const", "var", "let", "tel"];

/// Whether a line begins with one of these words.
fn is_of_program(line: &str) -> bool {
    let Some(word) = line.split(" ").next() else {
        return false;
    };
    is_any(word.strip_suffix(";").unwrap_or(word), &OPENINGS)
}

/// Whether a line reads as an equation: a name, the equals sign, and a semicolon at the end.
fn is_equation(line: &str) -> bool {
    match line.split_once('=') {
        Some((left, _)) => {
            let name = left.trim();
            !name.is_empty()
                && name.as_bytes().iter().all(|byte| is_of_word(*byte))
                && line.ends_with(";")
        }
        None => false,
    }
}

/// The first line of a comment, behind the one that it begins on, that begins a declaration or a part of one, or reads as an equation.
fn line_in(text: &str) -> Option<(usize, &str)> {
    let mut at = 0usize;
    for line in text.split("\n") {
        if at > 0 && (is_of_program(line.trim()) || is_equation(line.trim())) {
            return Some((at, line.trim()));
        }
        at = at.saturating_add(line.len()).saturating_add(1);
    }
    None
}

/// Where another comment of its kind begins in a comment, on a later line than it.
fn opening_in(text: &str) -> Option<usize> {
    let bytes = text.as_bytes();
    let first = bytes.first().copied().unwrap_or(b' ');
    let mut is_later = false;
    for (place, byte) in bytes.iter().enumerate() {
        is_later = is_later || *byte == b'\n';
        let next = bytes.get(place.saturating_add(1)).copied().unwrap_or(b' ');
        let behind = bytes.get(place.saturating_add(2)).copied().unwrap_or(b' ');
        if is_later && *byte == first && next == b'*' && behind != b')' {
            return Some(place);
        }
    }
    None
}

/// What a comment holds.
fn swallowed_by(comment: Comment<'_>) -> Swallowed<'_> {
    Swallowed {
        line: line_in(comment.text),
        opening: opening_in(comment.text),
    }
}

/// The last comment between signs that begins before a byte.
fn comment_before<'t>(
    alloc: Global,
    source: &'t str,
    byte: usize,
) -> Result<Option<Comment<'t>>, AllocError> {
    let mut found = None;
    for comment in &comments_in(alloc, source)? {
        if comment.start < byte && !comment.is_line() {
            found = Some(*comment);
        }
    }
    Ok(found)
}

/// The last line before a byte of a comment that ends with a star, or else the last that isn't blank: where it ends, and whether it has the
/// star.
fn line_to_close(text: &str, limit: usize) -> Option<(usize, bool)> {
    let mut at = 0usize;
    let mut last = None;
    for line in text.split("\n") {
        let behind = at.saturating_add(line.len()).saturating_add(1);
        if behind > limit.saturating_add(1) || at >= limit {
            return last;
        }
        let end = at.saturating_add(line.trim_end().len());
        if line.trim().ends_with("*") && line.trim().contains(" ") {
            return Some((end, true));
        }
        if !line.trim().is_empty() {
            last = Some((end, false));
        }
        at = behind;
    }
    last
}

/// Whether nothing but blanks stands before a byte of a source on its line.
fn begins_line(source: &str, byte: usize) -> bool {
    let before = source.as_bytes().get(..byte).unwrap_or(&[]);
    let mut is_blank = true;
    for one in before {
        is_blank = *one == b'\n' || is_blank && one.is_ascii_whitespace();
    }
    is_blank
}

/// The change that closes a comment before what it should not hold; none on a line on which something stands before it, which may go on
/// behind its end.
fn closing(
    alloc: Global,
    source: &str,
    comment: Comment<'_>,
    swallowed: Swallowed<'_>,
) -> Result<Option<Edit>, AllocError> {
    let limit = match (swallowed.line, swallowed.opening) {
        (Some((line, _)), Some(opening)) => line.min(opening),
        (Some((line, _)), None) => line,
        (None, Some(opening)) => opening,
        (None, None) => return Ok(None),
    };
    let Some((end, has_star)) = line_to_close(comment.text, limit) else {
        return Ok(None);
    };
    let first = comment.text.find("\n").unwrap_or(comment.text.len());
    if end <= first && !has_star && !begins_line(source, comment.start) {
        return Ok(None);
    }
    let close = match (comment.text.starts_with("/"), has_star) {
        (true, true) => "/",
        (false, true) => ")",
        (true, false) => " */",
        (false, false) => " *)",
    };
    Ok(Some(Edit {
        byte: comment.start.saturating_add(end),
        length: 0,
        text: String::from_str(alloc, close)?,
    }))
}

/// The sentence on a comment, by what it takes out of the program.
fn sentence_on(
    alloc: Global,
    source: &str,
    comment: Comment<'_>,
    swallowed: Swallowed<'_>,
) -> Result<String, AllocError> {
    let end = comment.start.saturating_add(comment.text.len());
    let last = place_at(source, end).line;
    let mut sentence = if comment.is_closed {
        format!(in alloc; "the comment that begins here goes on to line {last}")?
    } else {
        String::from_str(alloc, "unterminated comment")?
    };
    if let Some((_, line)) = swallowed.line {
        if is_equation(line) {
            let name = line.split("=").next().unwrap_or(line).trim();
            write!(
                sentence,
                ": it takes the equation of `{name}` out of the program"
            )?;
        } else {
            let front = line.split("(").next().unwrap_or(line).trim();
            write!(sentence, ": it takes `{front}` out of the program")?;
        }
    }
    Ok(sentence)
}

/// What is said of a comment, by what it takes out of the program.
fn told_of(
    alloc: Global,
    source: &str,
    comment: Comment<'_>,
    swallowed: Swallowed<'_>,
) -> Result<Finding, AllocError> {
    let sentence = sentence_on(alloc, source, comment, swallowed)?;
    let mut finding = Finding::new(alloc, sentence, 2);
    finding.place = Some(place_at(source, comment.start));
    if let Some(opening) = swallowed.opening {
        let start = place_at(source, comment.start.saturating_add(opening));
        let label = if comment.is_closed {
            "this stands in it: comments do not nest, and the next end is that of both"
        } else {
            "this stands in it: comments do not nest"
        };
        finding.relate(Span { start, length: 2 }, String::from_str(alloc, label)?)?;
    }
    let close = if comment.text.starts_with("/") {
        "*/"
    } else {
        "*)"
    };
    let edit = closing(alloc, source, comment, swallowed)?;
    finding.note = Some(match swallowed.line {
        Some((at, line)) if edit.is_some() && is_equation(line) => {
            let number = place_at(source, comment.start.saturating_add(at)).line;
            format!(in alloc;
                "Close it with `{close}` where it is to end: before line {number}, if that is part of the program."
            )?
        }
        _ => format!(in alloc; "Close it with `{close}` where it is to end.")?,
    });
    Ok(finding.with_edit(edit))
}

/// Whether a token stands between two bytes.
fn has_token(fault: &Fault<'_>, from: usize, to: usize) -> bool {
    fault.all.iter().any(|token| from <= token.span.start.byte && token.span.start.byte < to)
}

/// What is said of a comment right before a fault, or open there, that takes a part of the program out of it: one that ends holds another
/// one, whose end it is.
pub fn swallowing(alloc: Global, fault: &Fault<'_>) -> Result<Option<Finding>, AllocError> {
    let byte = match fault.token() {
        Some(token) if fault.number == RefusalNumber::Syntax => token.span.start.byte,
        _ => fault.source.len(),
    };
    let Some(comment) = comment_before(alloc, fault.source, byte)? else {
        return Ok(None);
    };
    let end = comment.start.saturating_add(comment.text.len());
    let swallowed = swallowed_by(comment);
    let is_told = swallowed.opening.is_some() || !comment.is_closed && swallowed.line.is_some();
    if !is_told || has_token(fault, end, byte) {
        return Ok(None);
    }
    Ok(Some(told_of(alloc, fault.source, comment, swallowed)?))
}
