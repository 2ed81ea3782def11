//! A source written with what stands before each of its tokens.

use crate::comments::read_items;
use crate::items::{Comment, Item};
use crate::page::{Gap, Page};
use crate::shapes::shapes_of;
use lus_syntax::{Token, Tree};
use std::alloc::{AllocError, Global};

/// A text that is written line by line. The last line begins at a byte, and is no line yet where it is empty.
#[derive(Drop)]
struct Writer<'s> {
    source: &'s [u8],
    text: Vec<u8>,
    line: usize,
    has_returns: bool,
}

/// Whether lines end with a carriage return and a line feed: as those within comments do, which stay, else as the first line does.
fn has_returns(source: &[u8], comments: &[Comment]) -> bool {
    for comment in comments {
        let text = source.get(comment.start..comment.end).unwrap_or(b"");
        if let Some(at) = text.iter().position(|byte| *byte == b'\n') {
            return text.get(at.wrapping_sub(1)) == Some(&b'\r');
        }
    }
    match source.iter().position(|byte| *byte == b'\n') {
        Some(at) => source.get(at.wrapping_sub(1)) == Some(&b'\r'),
        None => false,
    }
}

impl Writer<'_> {
    /// Whether nothing stands on the last line.
    fn is_fresh(&self) -> bool {
        self.line >= self.text.len()
    }

    /// Whether an empty line stands before the last one.
    fn is_parted(&self) -> bool {
        self.text.ends_with(b"\n\n") || self.text.ends_with(b"\n\r\n")
    }

    fn feed(&mut self) -> Result<(), AllocError> {
        if self.has_returns {
            self.text.push(b'\r')?;
        }
        self.text.push(b'\n')?;
        Ok(())
    }

    /// Ends the line if something stands on it. An empty line follows where it is wanted, but neither first nor twice.
    fn end_line(&mut self, wants_empty: bool) -> Result<(), AllocError> {
        if !self.is_fresh() {
            self.feed()?;
        }
        if wants_empty && !self.text.is_empty() && !self.is_parted() {
            self.feed()?;
        }
        self.line = self.text.len();
        Ok(())
    }

    fn blanks(&mut self, count: u32) -> Result<(), AllocError> {
        for _ in 0..count {
            self.text.push(b' ')?;
        }
        Ok(())
    }

    /// Writes what the source has from one byte to another.
    fn copy(&mut self, start: usize, end: usize) -> Result<(), AllocError> {
        let text = self.source.get(start..end).unwrap_or(b"");
        self.text.extend_from_slice(text)
    }

    /// Writes a comment: on a line that it begins, at this column, or behind what stands there.
    fn comment(&mut self, comment: &Comment, column: u32) -> Result<(), AllocError> {
        if self.is_fresh() {
            self.blanks(column)?;
        } else if !self.text.ends_with(b"(") {
            self.blanks(1)?;
        }
        self.copy(comment.start, comment.end)?;
        if comment.ends_line {
            self.end_line(false)?;
        }
        Ok(())
    }

    /// Writes the comments before a token, those from one on on its line. Where an empty line has to be put, it stands before the
    /// first that begins a line. Says whether it has still to be put.
    fn comments(
        &mut self,
        gap: &Gap,
        comments: &[Comment],
        inline: usize,
        wants: bool,
    ) -> Result<bool, AllocError> {
        let mut wants = wants;
        for (index, comment) in comments.iter().enumerate() {
            let begins = gap.line.is_some() && index == inline;
            if comment.is_own || begins || self.is_fresh() {
                let is_apart = comment.is_apart && !(gap.opens && index == 0);
                self.end_line(is_apart || wants)?;
                wants = false;
            }
            let column = if index >= inline {
                gap.line.unwrap_or(gap.within)
            } else {
                gap.within
            };
            self.comment(comment, column)?;
        }
        Ok(wants)
    }

    /// Writes a token behind its comments, some of which may stand on its line.
    fn token(
        &mut self,
        gap: &Gap,
        item: &Item,
        is_inline: bool,
        wants: bool,
    ) -> Result<(), AllocError> {
        let has_comments = item.behind > item.first;
        match gap.line {
            Some(column) if !is_inline => {
                let is_apart = gap.may_part && item.is_apart && (has_comments || !gap.opens);
                self.end_line(is_apart || wants)?;
                self.blanks(column)?;
            }
            _ => {
                if self.is_fresh() {
                    self.blanks(gap.within)?;
                } else if has_comments || !gap.is_tight {
                    self.blanks(1)?;
                }
            }
        }
        self.copy(item.start, item.end)
    }

    /// Writes a token and its comments.
    fn item(&mut self, gap: &Gap, item: &Item, comments: &[Comment]) -> Result<(), AllocError> {
        let inline = behind_last_line(comments);
        let is_apart = item.is_apart || comments.iter().any(|comment| comment.is_apart);
        let wants = self.comments(gap, comments, inline, gap.must_part && !is_apart)?;
        if item.start == item.end {
            return self.end_line(false);
        }
        self.token(gap, item, inline < comments.len(), wants)
    }
}

/// The place behind the last comment that ends its line.
fn behind_last_line(comments: &[Comment]) -> usize {
    let mut behind = 0;
    for (index, comment) in comments.iter().enumerate() {
        if comment.ends_line {
            behind = index.saturating_add(1);
        }
    }
    behind
}

/// A source with its tokens, which spell this tree, laid out on lines of at most so many columns, as far as its comments and what
/// can't be broken let them.
pub fn laid_out(
    alloc: Global,
    source: &[u8],
    tokens: &[Token<'_>],
    tree: &Tree,
    width: u32,
) -> Result<Vec<u8>, AllocError> {
    let (items, comments) = read_items(alloc, source, tokens)?;
    let shapes = shapes_of(alloc, tokens, tree)?;
    let mut page = Page::new(alloc, tokens, shapes, &items, &comments, width)?;
    page.place_all();
    let mut writer = Writer {
        source,
        text: Vec::new(alloc),
        line: 0,
        has_returns: has_returns(source, &comments),
    };
    for (gap, item) in page.gaps.iter().zip(&items) {
        let own = comments.get(item.first..item.behind).unwrap_or(&[]);
        writer.item(gap, item, own)?;
    }
    let Writer { text, .. } = writer;
    Ok(text)
}
