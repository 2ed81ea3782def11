//! What a name would stand for at a place where one is being written.

use crate::kinds::Kind;
use crate::names::Names;
use crate::role::{Mention, Role};
use crate::scanner::mentions_before;
use lus_syntax::{Symbol, Token, TokenKind};
use std::alloc::{AllocError, Global};

/// What a name at a place would stand for.
#[derive(Clone, Copy, Debug, PartialEq, Eq)]
pub enum Slot {
    /// Nothing: it stands outside of declarations, or is declared here.
    New,
    Type,
    /// A variable on the left of an equation.
    Left,
    /// The variable of a test or of a merge.
    Tested,
    /// A constructor: of a branch of a merge of this variable, or of a test or a constant.
    Label(Option<usize>),
    /// A field of a structure of this type, as far as it is known.
    Field(Option<usize>),
    /// A variable, a constant, a constructor or a call.
    Value,
}

/// A place where a name is written: the token that the name is, or that it would stand before; what it would stand for; and the names
/// that stand for the same in its node, its structure or its merge already.
#[derive(Drop)]
pub struct Opening<'t> {
    pub token: usize,
    pub slot: Slot,
    pub taken: Vec<&'t str>,
}

/// How many tokens stand before the name at a byte, which ends there or would begin there.
fn tokens_before(tokens: &[Token<'_>], byte: usize) -> usize {
    let before = tokens.partition_point(|token| token.span.start.byte < byte);
    match tokens.get(before.saturating_sub(1)) {
        Some(last) if before > 0 && last.span.end().byte >= byte => match last.kind {
            TokenKind::Identifier(_) | TokenKind::Keyword(_) => before.saturating_sub(1),
            _ => before,
        },
        _ => before,
    }
}

/// Whether a name stands for a part of the same whole as one that is missing, where a node has these tokens.
fn are_of_one(node: (usize, usize), missing: Mention, other: Mention) -> bool {
    if missing.role != other.role {
        return false;
    }
    match missing.role {
        Role::Left => node.0 <= other.token && other.token < node.1,
        Role::Field | Role::Label => missing.of.is_some() && missing.of == other.of,
        _ => false,
    }
}

impl<'t> Names<'t> {
    /// The type of the expression that a mention ends, if it is declared and has fields.
    fn owner_type(&self, mentions: &[Mention], of: Option<usize>) -> Option<usize> {
        let owner = self.declaration_of(mentions.get(of?)?.token)?;
        match self.kind_of(owner)? {
            Kind::Declared(of) => Some(of),
            _ => None,
        }
    }

    /// What a mention would stand for.
    fn slot_of(&self, mentions: &[Mention], missing: Option<Mention>) -> Slot {
        let Some(mention) = missing else {
            return Slot::New;
        };
        match mention.role {
            Role::Declares(_) => Slot::New,
            Role::Type => Slot::Type,
            Role::Left => Slot::Left,
            Role::Tested => Slot::Tested,
            Role::Called | Role::Value => Slot::Value,
            Role::Field => Slot::Field(self.owner_type(mentions, mention.of)),
            Role::Label => Slot::Label(match mention.of {
                Some(merged) => match mentions.get(merged) {
                    Some(merged) => self.declaration_of(merged.token),
                    None => None,
                },
                None => None,
            }),
        }
    }

    /// Whether a token is behind a dot.
    fn is_member(&self, token: usize) -> bool {
        match self.tokens.get(token.saturating_sub(1)) {
            Some(before) => matches!(before.kind, TokenKind::Punctuation(Symbol::Dot)),
            None => false,
        }
    }

    /// The names of the same node, structure or merge that stand for the same as one at a byte that would stand before a token.
    fn taken(
        &self,
        alloc: Global,
        mentions: &[Mention],
        missing: Mention,
        byte: usize,
    ) -> Result<Vec<&'t str>, AllocError> {
        let node = self.node_tokens(missing.token);
        let mut taken = Vec::new(alloc);
        for mention in mentions {
            if let Some(token) = self.tokens.get(mention.token)
                && let TokenKind::Identifier(name) = token.kind
                && (mention.token != missing.token || token.span.start.byte >= byte)
                && are_of_one(node, missing, *mention)
            {
                taken.push(name)?;
            }
        }
        Ok(taken)
    }

    /// The place where a name at a byte is written.
    pub fn opening_at(&self, alloc: Global, byte: usize) -> Result<Opening<'t>, AllocError> {
        let token = tokens_before(&self.tokens, byte);
        let (mentions, missing) = mentions_before(alloc, &self.tokens, token)?;
        let slot = self.slot_of(&mentions, missing);
        let taken = match missing {
            Some(missing) if !self.is_member(token) => {
                self.taken(alloc, &mentions, missing, byte)?
            }
            _ => Vec::new(alloc),
        };
        Ok(Opening { token, slot, taken })
    }
}
