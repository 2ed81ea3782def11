//! Comments: where they stand, and what those above a declaration say of it.

use crate::outline::begins;
use lus_edits::piece_len;
use lus_faults::bytes_at;
use lus_occurrences::Names;
use lus_syntax::{Token, TokenKind};
use std::alloc::{AllocError, Global};

/// A comment by its first byte and the one behind it, and how many line feeds stand before it behind another comment or a token. One
/// that nothing closes has no end.
#[derive(Clone, Copy)]
struct Comment {
    from: usize,
    to: usize,
    feeds: usize,
}

/// The comments from the end of a token to a byte, and how many line feeds stand behind the last one.
fn comments_between(
    alloc: Global,
    source: &str,
    from: usize,
    to: usize,
) -> Result<(Vec<Comment>, usize), AllocError> {
    let mut found = Vec::new(alloc);
    let mut feeds = 0usize;
    let mut at = from;
    for _piece in from..to {
        let rest = source.as_bytes().get(at..).unwrap_or(b"");
        if at >= to {
            break;
        }
        let length = match piece_len(rest) {
            Some(length) => length,
            None if rest.starts_with(b"/*") || rest.starts_with(b"(*") => usize::MAX,
            None => break,
        };
        let end = at.saturating_add(length);
        if length > 1 {
            let comment = Comment {
                from: at,
                to: end,
                feeds,
            };
            found.push(comment)?;
            feeds = 0;
        } else if rest.starts_with(b"\n") {
            feeds = feeds.saturating_add(1);
        }
        at = end;
    }
    Ok((found, feeds))
}

/// The byte behind the last of some tokens; the first byte where there is none.
fn end_of(tokens: &[Token<'_>]) -> usize {
    match tokens.last() {
        Some(last) => last.span.end().byte,
        None => 0,
    }
}

/// Whether a name can be written at a byte: none can in a number and in a comment.
pub(crate) fn can_name(
    alloc: Global,
    source: &str,
    tokens: &[Token<'_>],
    byte: usize,
) -> Result<bool, AllocError> {
    let count = tokens.partition_point(|token| token.span.start.byte < byte);
    let before = tokens.get(..count).unwrap_or(&[]);
    let end = end_of(before);
    if let Some(last) = before.last()
        && end >= byte
    {
        return Ok(!matches!(last.kind, TokenKind::Number(_)));
    }
    let (comments, _) = comments_between(alloc, source, end, byte)?;
    let Some(last) = comments.last() else {
        return Ok(true);
    };
    let is_line = bytes_at(source, last.from, last.from.saturating_add(2)) == Some("--");
    Ok(last.to < byte || (last.to == byte && !is_line))
}

/// The words of a line of a comment, without what opens and closes it.
fn words_of(line: &str) -> &str {
    let line = line.trim();
    let line = line.strip_prefix("--").unwrap_or(line);
    let line = line.strip_prefix("/*").unwrap_or(line);
    let line = line.strip_prefix("(*").unwrap_or(line);
    let line = line.strip_suffix("*/").unwrap_or(line);
    let line = line.strip_suffix("*)").unwrap_or(line);
    let line = line.trim();
    line.strip_prefix("*").unwrap_or(line).trim()
}

/// Appends what a comment says, line by line.
fn push_words(said: &mut String, comment: &str) -> Result<(), AllocError> {
    for line in comment.lines() {
        let words = words_of(line);
        if !words.is_empty() {
            if !said.is_empty() {
                said.push_str("\n")?;
            }
            said.push_str(words)?;
        }
    }
    Ok(())
}

/// What the comments directly above a token say, which stand on lines of their own; empty where there are none.
fn said_above(
    alloc: Global,
    source: &str,
    tokens: &[Token<'_>],
    token: usize,
) -> Result<String, AllocError> {
    let mut said = String::new(alloc);
    let Some(here) = tokens.get(token) else {
        return Ok(said);
    };
    let from = end_of(tokens.get(..token).unwrap_or(&[]));
    let (comments, feeds) = comments_between(alloc, source, from, here.span.start.byte)?;
    if feeds != 1 {
        return Ok(said);
    }
    let mut is_own = from == 0;
    for comment in &comments {
        is_own = is_own || comment.feeds > 0;
        if comment.feeds > 1 {
            said.clear();
        }
        if is_own {
            push_words(
                &mut said,
                bytes_at(source, comment.from, comment.to).unwrap_or(""),
            )?;
        }
    }
    Ok(said)
}

/// What the comments directly above a declaration say, or above the word that it begins with; empty where there are none.
pub(crate) fn comment_of(
    alloc: Global,
    source: &str,
    names: &Names<'_>,
    declaration: usize,
) -> Result<String, AllocError> {
    let Some(declared) = names.declarations.get(declaration) else {
        return Ok(String::new(alloc));
    };
    let said = said_above(alloc, source, &names.tokens, declared.token)?;
    let before = declared.token.saturating_sub(1);
    match names.tokens.get(before) {
        Some(token) if said.is_empty() && begins(token) => {
            said_above(alloc, source, &names.tokens, before)
        }
        _ => Ok(said),
    }
}
