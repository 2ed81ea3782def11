//! What stands before each token, as it is decided on.

use crate::items::{Comment, Item};
use crate::shapes::{Form, Shape};
use lus_syntax::{Symbol, Token, TokenKind, Word};
use std::alloc::{AllocError, Global};

/// What stands before a token.
#[derive(Clone, Copy)]
pub struct Gap {
    /// The token's own columns.
    pub columns: u32,
    /// The columns of comments that stay on its line, with a blank each.
    pub comments: u32,
    /// Nothing stands before it on its line.
    pub is_tight: bool,
    /// A comment before it ends its line.
    pub has_line: bool,
    /// The author began a new line before it, or before a comment before it.
    pub is_broken: bool,
    /// The column of a new line, if one begins.
    pub line: Option<u32>,
    /// The column of a line that a comment makes, and of comments on lines of their own.
    pub within: u32,
    /// An empty line before it is kept.
    pub may_part: bool,
    /// An empty line is put before it.
    pub must_part: bool,
    /// It is the first of what holds it: no empty line is kept before it.
    pub opens: bool,
}

impl Gap {
    const NONE: Gap = Gap {
        columns: 0,
        comments: 0,
        is_tight: true,
        has_line: false,
        is_broken: false,
        line: None,
        within: 0,
        may_part: false,
        must_part: false,
        opens: false,
    };

    /// The columns before the token where no new line begins.
    fn before(&self) -> u32 {
        if self.is_tight {
            self.comments
        } else {
            self.comments.saturating_add(1)
        }
    }
}

/// The gaps of a source that is laid out, and what decisions on them ask.
#[derive(Drop)]
pub struct Page<'t> {
    pub tokens: &'t [Token<'t>],
    pub shapes: Vec<Shape>,
    pub gaps: Vec<Gap>,
    /// The columns up to each token, were all on one line.
    sums: Vec<u32>,
    /// How many tokens up to each one have a comment before them that ends its line, or stand where the author broke a line.
    lines: Vec<u32>,
    breaks: Vec<u32>,
    /// The most columns of a line.
    pub width: u32,
    /// The most columns that something which was placed has reached.
    pub reached: u32,
    /// Whether the author's own breaks count for nothing.
    pub is_trial: bool,
}

/// Whether an operand may end with this token.
fn ends_operand(kind: TokenKind<'_>) -> bool {
    match kind {
        TokenKind::Identifier(_) | TokenKind::Number(_) => true,
        TokenKind::Punctuation(symbol) => matches!(symbol, Symbol::Close | Symbol::CloseBrace),
        TokenKind::Keyword(word) => matches!(word, Word::True | Word::False),
    }
}

/// A token, if there is one.
fn kind_at<'t>(tokens: &[Token<'t>], at: usize) -> Option<TokenKind<'t>> {
    match tokens.get(at) {
        Some(token) => Some(token.kind),
        None => None,
    }
}

fn is_symbol(kind: Option<TokenKind<'_>>, wanted: Symbol) -> bool {
    matches!(kind, Some(TokenKind::Punctuation(symbol)) if symbol == wanted)
}

fn is_word(kind: Option<TokenKind<'_>>, wanted: Word) -> bool {
    matches!(kind, Some(TokenKind::Keyword(word)) if word == wanted)
}

/// Whether a parenthesis stands right behind what is before it, as that of a call does.
fn is_tight_parenthesis(tokens: &[Token<'_>], at: usize) -> bool {
    let before = kind_at(tokens, at.saturating_sub(1));
    let is_merge = at > 1 && is_word(kind_at(tokens, at.saturating_sub(2)), Word::Merge);
    match before {
        Some(TokenKind::Identifier(_)) => !is_merge,
        Some(TokenKind::Punctuation(symbol)) => symbol == Symbol::Sharp,
        Some(TokenKind::Keyword(word)) => matches!(word, Word::True | Word::False | Word::Nor),
        _ => false,
    }
}

/// Whether a token is a minus before its operand.
fn is_sign(tokens: &[Token<'_>], at: usize) -> bool {
    if !is_symbol(kind_at(tokens, at), Symbol::Minus) {
        return false;
    }
    match kind_at(tokens, at.wrapping_sub(1)) {
        Some(kind) => !ends_operand(kind),
        None => true,
    }
}

/// Whether nothing stands between a token and the one before it on one line.
fn is_tight(tokens: &[Token<'_>], at: usize) -> bool {
    let before = kind_at(tokens, at.wrapping_sub(1));
    if is_symbol(before, Symbol::Open) || is_symbol(before, Symbol::Dot) {
        return true;
    }
    match kind_at(tokens, at) {
        None => true,
        Some(TokenKind::Punctuation(symbol)) => match symbol {
            Symbol::Close | Symbol::Comma | Symbol::Dot | Symbol::Semicolon | Symbol::Colon => true,
            Symbol::Open => at > 0 && is_tight_parenthesis(tokens, at)
                || is_sign(tokens, at.wrapping_sub(1)),
            Symbol::Minus => false,
            _ => at == 0,
        },
        Some(_) => at == 0 || is_sign(tokens, at.wrapping_sub(1)),
    }
}

/// Whether a new line that the author began with a token stays: it begins the parts of something that may be broken.
fn may_stay_broken(tokens: &[Token<'_>], at: usize) -> bool {
    let here = kind_at(tokens, at);
    if is_word(here, Word::Returns) || is_word(here, Word::Else) {
        return true;
    }
    let before = kind_at(tokens, at.wrapping_sub(1));
    if is_word(before, Word::Var)
        || is_symbol(before, Symbol::OpenBrace)
        || is_symbol(before, Symbol::Arrow)
    {
        return true;
    }
    is_symbol(here, Symbol::Open) && is_word(kind_at(tokens, at.wrapping_sub(2)), Word::Merge)
}

/// The gap before a token, with its comments, before anything is decided.
fn gap_of(tokens: &[Token<'_>], at: usize, item: &Item, comments: &[Comment]) -> Gap {
    let mut gap = Gap {
        columns: item.columns(),
        is_tight: is_tight(tokens, at),
        is_broken: item.begins_line,
        ..Gap::NONE
    };
    for comment in comments {
        if comment.ends_line {
            gap.has_line = true;
        } else {
            gap.comments = gap
                .comments
                .saturating_add(comment.columns)
                .saturating_add(1);
        }
    }
    gap
}

/// One more, if so.
fn counted(count: u32, is_so: bool) -> u32 {
    if is_so {
        count.saturating_add(1)
    } else {
        count
    }
}

impl<'t> Page<'t> {
    /// A page on which nothing is decided yet.
    pub fn new(
        alloc: Global,
        tokens: &'t [Token<'t>],
        shapes: Vec<Shape>,
        items: &[Item],
        comments: &[Comment],
        width: u32,
    ) -> Result<Page<'t>, AllocError> {
        let mut gaps = Vec::new(alloc);
        let mut sums = Vec::new(alloc);
        let mut lines = Vec::new(alloc);
        let mut breaks = Vec::new(alloc);
        let mut sum = 0u32;
        let mut line = 0u32;
        let mut breaking = 0u32;
        for (at, item) in items.iter().enumerate() {
            let own = comments.get(item.first..item.behind).unwrap_or(&[]);
            let gap = gap_of(tokens, at, item, own);
            let is_kept = item.begins_line && may_stay_broken(tokens, at);
            sums.push(sum)?;
            lines.push(line)?;
            breaks.push(breaking)?;
            sum = sum.saturating_add(gap.before()).saturating_add(gap.columns);
            line = counted(line, gap.has_line);
            breaking = counted(breaking, gap.has_line || is_kept);
            gaps.push(gap)?;
        }
        sums.push(sum)?;
        lines.push(line)?;
        breaks.push(breaking)?;
        Ok(Page {
            tokens,
            shapes,
            gaps,
            sums,
            lines,
            breaks,
            width,
            reached: 0,
            is_trial: false,
        })
    }

    pub fn is_symbol(&self, at: usize, wanted: Symbol) -> bool {
        is_symbol(kind_at(self.tokens, at), wanted)
    }

    pub fn is_word(&self, at: usize, wanted: Word) -> bool {
        is_word(kind_at(self.tokens, at), wanted)
    }

    pub fn is_name(&self, at: usize) -> bool {
        matches!(kind_at(self.tokens, at), Some(TokenKind::Identifier(_)))
    }

    /// An expression, by its place among all.
    pub fn shape(&self, place: usize) -> Shape {
        let none = Shape {
            form: Form::Leaf,
            first: self.tokens.len(),
            behind: self.tokens.len(),
            next: place.saturating_add(1),
            head: self.tokens.len(),
            count: 0,
        };
        self.shapes.get(place).copied().unwrap_or(none)
    }

    pub fn gap(&self, at: usize) -> Gap {
        self.gaps.get(at).copied().unwrap_or(Gap::NONE)
    }

    /// The columns of tokens on one line, without what stands before the first.
    pub fn columns(&self, first: usize, behind: usize) -> u32 {
        let start = self.sums.get(first).copied().unwrap_or(0);
        let end = self.sums.get(behind).copied().unwrap_or(0);
        end.saturating_sub(start)
            .saturating_sub(self.gap(first).before())
    }

    /// Whether the author began a new line with a token, which counts.
    pub fn is_broken(&self, at: usize) -> bool {
        self.gap(at).is_broken && !self.is_trial
    }

    /// Whether these tokens may stand on one line.
    pub fn is_flat(&self, first: usize, behind: usize) -> bool {
        let counts = if self.is_trial {
            &self.lines
        } else {
            &self.breaks
        };
        counts.get(first.saturating_add(1)) == counts.get(behind)
    }

    /// Whether these tokens fit on one line from a column on, with so many columns behind them.
    pub fn fits(&self, first: usize, behind: usize, column: u32, tail: u32) -> bool {
        let end = column
            .saturating_add(self.columns(first, behind))
            .saturating_add(tail);
        self.is_flat(first, behind) && end <= self.width
    }

    /// Begins a new line with a token.
    pub fn new_line(&mut self, at: usize, column: u32) -> u32 {
        if let Some(gap) = self.gaps.get_mut(at) {
            gap.line = Some(column);
            gap.within = column;
        }
        column
    }

    /// Sets the column of a line that a comment before a token makes.
    pub fn set_within(&mut self, at: usize, column: u32) {
        if let Some(gap) = self.gaps.get_mut(at) {
            gap.within = column;
        }
    }

    /// Begins a new line with a token before which an empty line may stand, but not where it opens what holds it.
    pub fn new_part(&mut self, at: usize, column: u32, opens: bool) -> u32 {
        if let Some(gap) = self.gaps.get_mut(at) {
            gap.may_part = true;
            gap.opens = opens;
        }
        self.new_line(at, column)
    }

    /// The column at which a token begins that goes on behind another column.
    pub fn step(&mut self, at: usize, column: u32, within: u32) -> u32 {
        self.set_within(at, within);
        let gap = self.gap(at);
        if gap.has_line {
            within
        } else {
            column.saturating_add(gap.before())
        }
    }

    /// The column behind a token that goes on behind another column.
    pub fn word(&mut self, at: usize, column: u32, within: u32) -> u32 {
        let start = self.step(at, column, within);
        start.saturating_add(self.gap(at).columns)
    }

    /// The column behind tokens that stand on one line from a column on, as far as comments let them.
    pub fn on_line(&mut self, first: usize, behind: usize, column: u32, within: u32) -> u32 {
        let mut end = column.saturating_add(self.gap(first).columns);
        for at in first.saturating_add(1)..behind {
            end = self.word(at, end, within);
        }
        self.reached = self.reached.max(end);
        end
    }

    /// Forgets the new lines before these tokens.
    pub fn forget(&mut self, first: usize, behind: usize, within: u32) {
        for at in first..behind {
            if let Some(gap) = self.gaps.get_mut(at) {
                gap.line = None;
                gap.within = within;
            }
        }
    }
}
