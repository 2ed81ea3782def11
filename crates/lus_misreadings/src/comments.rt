//! Comments that are meant as two signs of minus, or as an arrow.

use crate::changes::helping;
use crate::edits::edit_at;
use crate::fault::Fault;
use crate::gate::{About, line_from, words_in};
use crate::saying::noted;
use crate::words::is_of_word;
use lus_faults::{Edit, Finding, bytes_at};
use lus_syntax::{Place, Span};
use std::alloc::{AllocError, Global};

/// The letters and digits that a text begins with.
fn word_of(text: &str) -> &str {
    for (count, byte) in text.as_bytes().iter().enumerate() {
        if !is_of_word(*byte) {
            return bytes_at(text, 0, count).unwrap_or("");
        }
    }
    text
}

/// The comment behind the token before the fault, on its line, and what stands behind its signs.
fn comment_before<'t>(fault: &Fault<'t>) -> Option<(Span, &'t str)> {
    let end = fault.last()?.span.end();
    let rest = bytes_at(fault.source, end.byte, fault.source.len())?;
    let line = rest.lines().next()?;
    let comment = line.trim();
    let inside = comment.strip_prefix("--")?;
    let offset = line.find("-").unwrap_or(0);
    let start = Place {
        byte: end.byte.saturating_add(offset),
        line: end.line,
        column: end.column.saturating_add(offset),
    };
    let length = comment.len();
    Some((Span { start, length }, inside))
}

/// Whether a comment may be meant as code: no blank stands behind its signs, and it ends an equation or closes a parenthesis.
fn is_of_code(inside: &str) -> bool {
    let is_begun = match inside.as_bytes().first() {
        Some(front) => is_of_word(*front) || matches!(*front, b'(' | b';' | b'>'),
        None => false,
    };
    is_begun && (inside.contains(";") || inside.contains(")"))
}

/// What a comment is meant as.
#[derive(Clone, Copy)]
enum Meant<'t> {
    Arrow,
    Countdown,
    Negative(&'t str),
}

/// What a comment of this inside is meant as.
fn meaning_of(inside: &str) -> Meant<'_> {
    let word = word_of(inside);
    if inside.starts_with(">") {
        Meant::Arrow
    } else if word.is_empty() {
        Meant::Countdown
    } else {
        Meant::Negative(word)
    }
}

/// The note on a comment.
fn note_on(meant: Meant<'_>) -> &'static str {
    match meant {
        Meant::Arrow => "The arrow is `->`.",
        Meant::Countdown => "To count down, write `y = 9 -> pre y - 1;`.",
        Meant::Negative(_) => "To subtract a negative number, write `3 - (-n)`.",
    }
}

/// What is written for the signs of a comment, and for the word behind them, and how many bytes it takes the place of.
fn written_for(alloc: Global, meant: Meant<'_>) -> Result<Option<(String, usize)>, AllocError> {
    match meant {
        Meant::Arrow => Ok(Some((String::from_str(alloc, "->")?, 3))),
        Meant::Countdown => Ok(None),
        Meant::Negative(word) => {
            let text = format!(in alloc; "- (-{word})")?;
            Ok(Some((text, word.len().saturating_add(2))))
        }
    }
}

/// A text and another one behind it, with a blank between.
fn followed(alloc: Global, text: &str, rest: &str) -> Result<String, AllocError> {
    format!(in alloc; "{text} {rest}")
}

/// What puts in the words of a line.
fn about_line(alloc: Global, line: &str) -> Result<About<'_>, AllocError> {
    Ok(About {
        drops: Vec::new(alloc),
        adds: words_in(alloc, line)?,
        moves: false,
    })
}

/// The change that writes what a comment at a byte is meant as. It puts in what the comment holds.
fn change_to(
    alloc: Global,
    fault: &Fault<'_>,
    meant: Meant<'_>,
    byte: usize,
) -> Result<Option<Edit>, AllocError> {
    let Some((text, length)) = written_for(alloc, meant)? else {
        return Ok(None);
    };
    let end = byte.saturating_add(length);
    let line = followed(alloc, text.as_str(), line_from(fault.source, end))?;
    let about = about_line(alloc, line.as_str())?;
    edit_at(alloc, fault, (byte, end), text, &about)
}

/// The change that writes what a comment is meant as, if it helps.
fn change_of(
    alloc: Global,
    fault: &Fault<'_>,
    meant: Meant<'_>,
    byte: usize,
) -> Result<Option<Edit>, AllocError> {
    let edit = change_to(alloc, fault, meant, byte)?;
    helping(alloc, fault.source, edit, fault.number)
}

/// What is said of a comment that is meant as code.
fn told_comment(
    alloc: Global,
    fault: &Fault<'_>,
    comment: Span,
    meant: Meant<'_>,
) -> Result<Finding, AllocError> {
    let sentence = String::from_str(alloc, "`--` starts a comment, which ends with its line")?;
    let place = Some(comment.start);
    let finding = noted(alloc, place, comment.length, sentence, note_on(meant))?;
    Ok(finding.with_edit(change_of(alloc, fault, meant, comment.start.byte)?))
}

/// What is said of a text that lacks what a comment holds.
pub fn commented(alloc: Global, fault: &Fault<'_>) -> Result<Option<Finding>, AllocError> {
    match comment_before(fault) {
        Some((comment, inside)) if is_of_code(inside) => {
            Ok(Some(told_comment(alloc, fault, comment, meaning_of(inside))?))
        }
        _ => Ok(None),
    }
}
