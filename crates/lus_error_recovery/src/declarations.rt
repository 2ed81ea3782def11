//! Declarations and statements, by their tokens.

use crate::parts::count_before;
use crate::passes::in_memory;
use crate::reading::tokens_from;
use lus_faults::Edit;
use lus_syntax::{Place, Span, Symbol, Token, TokenKind, Word};
use std::alloc::{AllocError, Global};

/// A node, or a group of types or constants: where it begins, what is left of its tokens, and where those stood that were taken out.
/// Of a node whether variables without an equation have values. Whether words of its head are others than those of the source.
#[derive(Drop)]
pub(crate) struct Declaration<'s> {
    pub start: Place,
    pub is_node: bool,
    pub is_filled: bool,
    pub is_rewritten: bool,
    pub tokens: Vec<Token<'s>>,
    pub taken: Vec<Span>,
}

/// Some tokens: the place of the first, and the one behind the last.
pub(crate) type Range = (usize, usize);

/// Whether a token opens a declaration.
fn opens(token: &Token<'_>) -> bool {
    matches!(
        token.kind,
        TokenKind::Keyword(Word::Node | Word::Function | Word::Type | Word::Const)
    )
}

/// The declarations of a source. What stands before the first belongs to it.
pub(crate) fn declarations_of<'s>(
    alloc: Global,
    tokens: &[Token<'s>],
) -> Result<Vec<Declaration<'s>>, AllocError> {
    let mut declarations: Vec<Declaration<'s>> = Vec::new(alloc);
    for token in tokens {
        if opens(token) || declarations.is_empty() {
            declarations.push(Declaration {
                start: token.span.start,
                is_node: matches!(token.kind, TokenKind::Keyword(Word::Node | Word::Function)),
                is_filled: false,
                is_rewritten: false,
                tokens: Vec::new(alloc),
                taken: Vec::new(alloc),
            })?;
        }
        if let Some(last) = declarations.last_mut() {
            last.tokens.push(*token)?;
        }
    }
    Ok(declarations)
}

/// How many braces are open behind a token, of which so many are open before it.
fn braces_behind(braces: usize, token: &Token<'_>) -> usize {
    match token.kind {
        TokenKind::Punctuation(Symbol::OpenBrace) => braces.saturating_add(1),
        TokenKind::Punctuation(Symbol::CloseBrace) => braces.saturating_sub(1),
        _ => braces,
    }
}

impl<'s> Declaration<'s> {
    /// The place of the first token that doesn't stand before a line and a column.
    pub fn place_at(&self, line: usize, column: usize) -> usize {
        self.tokens
            .iter()
            .take_while(|token| {
                let start = token.span.start;
                start.line < line || (start.line == line && start.column < column)
            })
            .count()
    }

    /// The tokens of the statement that a token stands in, with its semicolon; nothing outside of the equations of a node.
    pub fn statement_at(&self, at: usize) -> Option<Range> {
        let mut first = self.tokens.len();
        let mut braces = 0;
        for (place, token) in self.tokens.iter().enumerate() {
            let behind = place.saturating_add(1);
            match token.kind {
                TokenKind::Keyword(Word::Let) => first = first.min(behind),
                TokenKind::Keyword(Word::Tel) if first <= at && at <= place && first < place => {
                    return Some((first, place));
                }
                TokenKind::Keyword(Word::Tel) => return None,
                TokenKind::Punctuation(Symbol::Semicolon) if braces == 0 && first <= place => {
                    if first <= at && at <= place {
                        return Some((first, behind));
                    }
                    first = behind;
                }
                _ => braces = braces_behind(braces, token),
            }
        }
        None
    }

    /// Whether an equation begins at a place on a line of its own though no semicolon stands before it: a name and a sign, behind what ends an
    /// operand.
    fn begins_at(&self, place: usize) -> bool {
        let (Some(before), Some(token)) = (
            self.tokens.get(place.saturating_sub(1)),
            self.tokens.get(place),
        ) else {
            return false;
        };
        let ends = matches!(
            before.kind,
            TokenKind::Identifier(_)
                | TokenKind::Number(_)
                | TokenKind::Keyword(Word::True | Word::False)
                | TokenKind::Punctuation(Symbol::Close | Symbol::CloseBrace)
        );
        let behind = place.saturating_add(1);
        ends && before.span.start.line < token.span.start.line
            && matches!(token.kind, TokenKind::Identifier(_))
            && (self.is_equal(behind) || self.is_equal(behind.saturating_add(1)))
    }

    /// The tokens of the equation that a token stands in, with its semicolon: its statement, from where the last equation begins before it
    /// that lacks a semicolon before it.
    pub fn equation_at(&self, at: usize) -> Option<Range> {
        let (first, behind) = self.statement_at(at)?;
        let mut begin = first;
        let mut braces = 0;
        for place in first..behind {
            if let Some(token) = self.tokens.get(place) {
                if place > first && place <= at && braces == 0 && self.begins_at(place) {
                    begin = place;
                }
                braces = braces_behind(braces, token);
            }
        }
        Some((begin, behind))
    }

    /// The place of the sign behind the left side of the statement that a token stands in, if that begins as an equation does: an equals
    /// sign, or another sign that has one behind it.
    pub fn sign_at(&self, at: usize) -> Option<usize> {
        let (first, behind) = self.statement_at(at)?;
        for place in first..behind {
            match self.tokens.get(place)?.kind {
                TokenKind::Identifier(_) => {}
                TokenKind::Punctuation(Symbol::Comma | Symbol::Open | Symbol::Close) => {}
                TokenKind::Punctuation(Symbol::Equal) if place > first => return Some(place),
                TokenKind::Punctuation(_)
                    if place > first && self.is_equal(place.saturating_add(1)) => {
                    return Some(place);
                }
                _ => return None,
            }
        }
        None
    }

    /// Whether an equals sign stands at a place.
    fn is_equal(&self, place: usize) -> bool {
        self.tokens.get(place).is_some_and(|token| matches!(
            token.kind,
            TokenKind::Punctuation(Symbol::Equal)
        ))
    }

    /// The line of the last token that begins before a byte.
    pub fn line_before(&self, byte: usize) -> usize {
        match self
            .tokens
            .get(count_before(&self.tokens, byte).saturating_sub(1))
        {
            Some(token) => token.span.start.line,
            None => 0,
        }
    }

    /// The names that it declares: of a node its own, and all of what opens no declaration.
    pub fn names(&self, alloc: Global) -> Result<Vec<&'s str>, AllocError> {
        let mut names = Vec::new(alloc);
        let mut braces = 0;
        let mut is_listed = self.tokens.first().is_some_and(|first| !opens(first));
        let mut is_next = false;
        for token in &self.tokens {
            match token.kind {
                TokenKind::Identifier(name) if is_listed || (is_next && braces == 0) => {
                    names.push(name)?;
                    if self.is_node {
                        return Ok(names);
                    }
                }
                TokenKind::Keyword(Word::Enum) => is_listed = true,
                TokenKind::Punctuation(Symbol::CloseBrace) => is_listed = false,
                _ => {}
            }
            braces = braces_behind(braces, token);
            let is_behind = matches!(
                token.kind,
                TokenKind::Punctuation(Symbol::Semicolon | Symbol::Comma)
            );
            is_next = is_behind || opens(token);
        }
        Ok(names)
    }

    /// The names that are lost with it: of a node its own, else all in it, since which of them it declares isn't known where it can't be read.
    pub fn lost_names(&self, alloc: Global) -> Result<Vec<&'s str>, AllocError> {
        if self.is_node {
            return self.names(alloc);
        }
        let mut names = Vec::new(alloc);
        for token in &self.tokens {
            if let TokenKind::Identifier(name) = token.kind {
                names.push(name)?;
            }
        }
        Ok(names)
    }

    /// A kind of token that borrows from the source. Of a name there is none where the declaration doesn't have it.
    fn own(&self, kind: TokenKind<'_>) -> Option<TokenKind<'s>> {
        match kind {
            TokenKind::Identifier(name) => {
                for token in &self.tokens {
                    match token.kind {
                        TokenKind::Identifier(found) if found == name => return Some(token.kind),
                        _ => {}
                    }
                }
                None
            }
            TokenKind::Number(number) => Some(TokenKind::Number(number)),
            TokenKind::Punctuation(symbol) => Some(TokenKind::Punctuation(symbol)),
            TokenKind::Keyword(word) => Some(TokenKind::Keyword(word)),
        }
    }

    /// Makes a change of the source in the tokens, unless it puts in a name that they don't have: whether it did. What it puts in takes no room
    /// in the source, and stands where the first token did that begins at the change or behind it, or else at this line and column.
    pub fn change(
        &mut self,
        alloc: Global,
        edit: &Edit,
        line: usize,
        column: usize,
    ) -> Result<bool, AllocError> {
        let from = count_before(&self.tokens, edit.byte);
        let to = count_before(&self.tokens, edit.byte.saturating_add(edit.length));
        let byte = edit.byte;
        let start = match self.tokens.get(from) {
            Some(first) => first.span.start,
            None => Place { byte, line, column },
        };
        let Ok(made) = in_memory(tokens_from(alloc, &edit.text, start))? else {
            return Ok(false);
        };
        let mut tokens = Vec::new(alloc);
        tokens.extend_from_slice(self.tokens.get(..from).unwrap_or(&[]))?;
        for token in &made {
            let Some(kind) = self.own(token.kind) else {
                return Ok(false);
            };
            let span = Span { start, length: 0 };
            tokens.push(Token { kind, span })?;
        }
        tokens.extend_from_slice(self.tokens.get(to..).unwrap_or(&[]))?;
        for token in self.tokens.get(from..to).unwrap_or(&[]) {
            self.taken.push(token.span)?;
        }
        self.tokens = tokens;
        Ok(true)
    }

    /// The bytes of some tokens, from the first one's first up to that behind the last one's last.
    pub fn bytes_of(&self, range: Range) -> (usize, usize) {
        let (from, to) = range;
        match (self.tokens.get(from), self.tokens.get(to.saturating_sub(1))) {
            (Some(first), Some(last)) => (first.span.start.byte, last.span.end().byte),
            _ => (0, 0),
        }
    }

    /// Has it be passed over where the source is read again, since its tokens aren't those of the source any more.
    pub fn pass_over(&mut self) -> Result<(), AllocError> {
        for token in &self.tokens {
            self.taken.push(token.span)?;
        }
        Ok(())
    }

    /// Takes some tokens out.
    pub fn take(&mut self, alloc: Global, range: Range) -> Result<(), AllocError> {
        let (from, to) = range;
        let mut kept = Vec::new(alloc);
        for (place, token) in self.tokens.iter().enumerate() {
            if from <= place && place < to {
                self.taken.push(token.span)?;
            } else {
                kept.push(*token)?;
            }
        }
        self.tokens = kept;
        Ok(())
    }
}
