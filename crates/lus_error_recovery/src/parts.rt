//! Parts of a source: a declaration, with as much of the others as a pass reads of them.

use crate::declarations::Declaration;
use crate::passes::in_memory;
use crate::reading::tokens_from;
use crate::rest::{MOST_SMALL, Rest};
use indexmap::IndexMap;
use lus_faults::Edit;
use lus_syntax::{Token, TokenKind, Word};
use std::alloc::{AllocError, Global};

/// For each name the place of the first declaration that declares it.
pub(crate) type Names = IndexMap<String, usize>;

/// What a part has beside its own declaration: of those that this one needs what they declare; what all others declare; those that this one
/// leads to, with their equations; or all.
#[derive(Clone, Copy, PartialEq, Eq)]
pub(crate) enum Beside {
    Needed,
    Declared,
    Reached,
    Whole,
}

/// The first declarations of names.
pub(crate) fn names_of(
    alloc: Global,
    declarations: &[Declaration<'_>],
) -> Result<Names, AllocError> {
    let mut names = IndexMap::new(alloc);
    for (place, declaration) in declarations.iter().enumerate() {
        for name in &declaration.names(alloc)? {
            if names.get(*name).is_none() {
                let _before = names.insert(String::from_str(alloc, name)?, place)?;
            }
        }
    }
    Ok(names)
}

/// How many of some tokens begin before a byte.
pub(crate) fn count_before(tokens: &[Token<'_>], byte: usize) -> usize {
    tokens
        .iter()
        .take_while(|token| token.span.start.byte < byte)
        .count()
}

/// Whether a byte is one of some tokens, or between them.
pub(crate) fn is_among(tokens: &[Token<'_>], byte: usize) -> bool {
    match (tokens.first(), tokens.last()) {
        (Some(first), Some(last)) => {
            first.span.start.byte <= byte && byte <= last.span.start.byte
        }
        _ => false,
    }
}

/// Tokens of a declaration after a change of the source: what it puts in stands where the first token did that begins there or behind. A
/// change elsewhere is none.
fn changed<'p>(
    alloc: Global,
    tokens: Vec<Token<'p>>,
    edit: &'p Edit,
) -> Result<Vec<Token<'p>>, AllocError> {
    if !is_among(&tokens, edit.byte) {
        return Ok(tokens);
    }
    let from = count_before(&tokens, edit.byte);
    let to = count_before(&tokens, edit.byte.saturating_add(edit.length));
    let mut changed = Vec::new(alloc);
    changed.extend_from_slice(tokens.get(..from).unwrap_or(&[]))?;
    if let Some(first) = tokens.get(from)
        && let Ok(made) = in_memory(tokens_from(alloc, &edit.text, first.span.start))?
    {
        changed.extend_from_slice(&made)?;
    }
    changed.extend_from_slice(tokens.get(to..).unwrap_or(&[]))?;
    Ok(changed)
}

/// The tokens of a node that stand before its locals and its equations.
fn head_of<'t, 'p>(tokens: &'t [Token<'p>]) -> &'t [Token<'p>] {
    let count = tokens
        .iter()
        .take_while(|token| !matches!(token.kind, TokenKind::Keyword(Word::Var | Word::Let)))
        .count();
    tokens.get(..count).unwrap_or(tokens)
}

/// The tokens of a node that stand before its equations.
fn front_of<'t, 'p>(tokens: &'t [Token<'p>]) -> &'t [Token<'p>] {
    let count = tokens
        .iter()
        .take_while(|token| !matches!(token.kind, TokenKind::Keyword(Word::Let)))
        .count();
    tokens.get(..count).unwrap_or(tokens)
}

impl Rest<'_> {
    /// The tokens that are left of a declaration, after the changes that were made and one that is tried.
    fn tokens_of<'p>(
        &'p self,
        alloc: Global,
        place: usize,
        tried: Option<&'p Edit>,
    ) -> Result<Vec<Token<'p>>, AllocError> {
        let mut tokens = Vec::new(alloc);
        if let Some(declaration) = self.declarations.get(place) {
            tokens.extend_from_slice(&declaration.tokens)?;
        }
        for edit in &self.edits {
            tokens = changed(alloc, tokens, edit)?;
        }
        match tried {
            Some(edit) => changed(alloc, tokens, edit),
            None => Ok(tokens),
        }
    }

    /// Which declarations the names among some tokens need, directly or by others: by all of these, or by what they declare.
    fn needed<'p>(
        &'p self,
        alloc: Global,
        tokens: &[Token<'p>],
        is_whole: bool,
    ) -> Result<Vec<bool>, AllocError> {
        let mut flags = Vec::new(alloc);
        for _declaration in &self.declarations {
            flags.push(false)?;
        }
        let mut open = Vec::new(alloc);
        open.extend_from_slice(tokens)?;
        // each token of the source is opened twice at most
        for _turn in 0..self.source.len().saturating_mul(2) {
            let Some(token) = open.pop() else {
                return Ok(flags);
            };
            if let TokenKind::Identifier(name) = token.kind
                && let Some(place) = self.names.get(name).copied()
                && let Some(flag) = flags.get_mut(place)
                && !*flag
            {
                *flag = true;
                if let Some(found) = self.declarations.get(place) {
                    let all = found.tokens.as_slice();
                    open.extend_from_slice(if is_whole { all } else { head_of(all) })?;
                }
            }
        }
        Ok(flags)
    }

    /// The tokens of a declaration that say what it declares: a node has no equations then, and locals only where
    /// all declarations are told and these are few bytes.
    fn declared<'p>(
        &'p self,
        alloc: Global,
        place: usize,
        beside: Beside,
        tried: Option<&'p Edit>,
    ) -> Result<Vec<Token<'p>>, AllocError> {
        let tokens = self.tokens_of(alloc, place, tried)?;
        let mut declared = Vec::new(alloc);
        let are_few = self.source.len() <= MOST_SMALL;
        if beside == Beside::Declared && are_few {
            declared.extend_from_slice(front_of(&tokens))?;
        } else {
            declared.extend_from_slice(head_of(&tokens))?;
        }
        let is_node = self
            .declarations
            .get(place)
            .is_some_and(|found| found.is_node);
        if is_node && let Some(last) = tokens.last().copied() {
            for word in [Word::Let, Word::Tel] {
                let kind = TokenKind::Keyword(word);
                declared.push(Token { kind, ..last })?;
            }
        }
        Ok(declared)
    }

    /// The tokens of the part with the declaration at a place. Nodes beside it have no equations, unless it is all that is left.
    pub(crate) fn part<'p>(
        &'p self,
        alloc: Global,
        own: usize,
        beside: Beside,
        tried: Option<&'p Edit>,
    ) -> Result<Vec<Token<'p>>, AllocError> {
        let mut part = Vec::new(alloc);
        let whole = self.tokens_of(alloc, own, tried)?;
        let needed = self.needed(alloc, &whole, beside == Beside::Reached)?;
        for (place, is_needed) in needed.iter().enumerate() {
            if place == own {
                part.extend_from_slice(&whole)?;
            } else if beside == Beside::Whole || *is_needed && beside == Beside::Reached {
                part.extend_from_slice(&self.tokens_of(alloc, place, tried)?)?;
            } else if *is_needed || beside == Beside::Declared {
                part.extend_from_slice(&self.declared(alloc, place, beside, tried)?)?;
            }
        }
        Ok(part)
    }
}
