//! Tokens and comments, by the bytes at which they stand.

/// A comment, and what stands round it.
#[derive(Clone, Copy)]
pub struct Comment {
    pub start: usize,
    pub end: usize,
    pub columns: u32,
    /// Nothing but blanks stands before it on its line.
    pub is_own: bool,
    /// An empty line stands before it.
    pub is_apart: bool,
    /// A new line has to follow it, or does.
    pub ends_line: bool,
}

/// A token, or the end of the source, and what stands before it: the comments from one on, up to another.
#[derive(Clone, Copy)]
pub struct Item {
    pub start: usize,
    pub end: usize,
    pub first: usize,
    pub behind: usize,
    /// An empty line stands before it.
    pub is_apart: bool,
    pub begins_line: bool,
}

impl Item {
    /// The columns of a token: each of its bytes is a character.
    pub fn columns(&self) -> u32 {
        u32::try_from(self.end.saturating_sub(self.start)).unwrap_or(u32::MAX)
    }
}
