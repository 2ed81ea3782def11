//! The comments of a source, and the tokens that they stand before.

use crate::items::{Comment, Item};
use lus_edits::piece_len;
use lus_syntax::Token;
use std::alloc::{AllocError, Global};

/// Where reading has come to: how many line feeds stand since the last token or comment, and what is read so far.
#[derive(Drop)]
struct Reader {
    items: Vec<Item>,
    comments: Vec<Comment>,
    feeds: u32,
    has_feed: bool,
    has_begun: bool,
    is_behind_comment: bool,
}

/// The columns of a text: a character is one.
fn columns_of(text: &[u8]) -> u32 {
    let mut columns = 0u32;
    for byte in text {
        if *byte < 128 || *byte >= 192 {
            columns = columns.saturating_add(1);
        }
    }
    columns
}

impl Reader {
    /// The line of the last comment ends behind it.
    fn end_line(&mut self) {
        if !self.is_behind_comment {
            return;
        }
        self.is_behind_comment = false;
        let last = self.comments.len().saturating_sub(1);
        if let Some(comment) = self.comments.get_mut(last) {
            comment.ends_line = true;
        }
    }

    fn blank(&mut self, byte: u8) {
        if byte == b'\n' {
            self.end_line();
            self.feeds = self.feeds.saturating_add(1);
            self.has_feed = true;
        }
    }

    fn comment(&mut self, piece: &[u8], start: usize) -> Result<(), AllocError> {
        let text = piece.trim_ascii_end();
        let is_long = text.starts_with(b"--") || text.contains(&b'\n');
        self.comments.push(Comment {
            start,
            end: start.saturating_add(text.len()),
            columns: columns_of(text),
            is_own: self.feeds > 0 || !self.has_begun,
            is_apart: self.feeds > 1 && self.has_begun,
            ends_line: is_long,
        })?;
        self.feeds = 0;
        self.has_begun = true;
        self.is_behind_comment = true;
        Ok(())
    }

    /// Reads what stands between two tokens, from a byte of the source on.
    fn gap(&mut self, gap: &[u8], start: usize) -> Result<(), AllocError> {
        let mut rest = gap;
        let mut at = start;
        while let Some(length) = piece_len(rest) {
            let (piece, after) = rest.split_at(length);
            match piece {
                [byte] => self.blank(*byte),
                _ => self.comment(piece, at)?,
            }
            rest = after;
            at = at.saturating_add(length);
        }
        Ok(())
    }

    /// What stands before a token from one byte to another, which is read, or before the end of the source.
    fn item(&mut self, start: usize, end: usize, first: usize) -> Result<(), AllocError> {
        self.items.push(Item {
            start,
            end,
            first,
            behind: self.comments.len(),
            is_apart: self.feeds > 1 && self.has_begun,
            begins_line: self.has_feed,
        })?;
        self.feeds = 0;
        self.has_feed = false;
        self.has_begun = true;
        self.is_behind_comment = false;
        Ok(())
    }
}

/// The tokens of a source with the end behind them, and its comments.
pub fn read_items(
    alloc: Global,
    source: &[u8],
    tokens: &[Token<'_>],
) -> Result<(Vec<Item>, Vec<Comment>), AllocError> {
    let mut reader = Reader {
        items: Vec::new(alloc),
        comments: Vec::new(alloc),
        feeds: 0,
        has_feed: true,
        has_begun: false,
        is_behind_comment: false,
    };
    let mut at = 0;
    for token in tokens {
        let start = token.span.start.byte;
        let end = start.saturating_add(token.span.length);
        let first = reader.comments.len();
        reader.gap(source.get(at..start).unwrap_or(b""), at)?;
        reader.item(start, end, first)?;
        at = end;
    }
    let first = reader.comments.len();
    reader.gap(source.get(at..).unwrap_or(b""), at)?;
    reader.end_line();
    reader.item(source.len(), source.len(), first)?;
    let Reader {
        items,
        comments,
        ..
    } = reader;
    Ok((items, comments))
}
