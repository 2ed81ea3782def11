//! What an expression may begin with.

ghost use Rattle.std.specs.Prelude.{◌≡◌, nat_le};
ghost use Rattle.lus_syntax.specs.View.{kind_seen, tokens_seen};
ghost use Rattle.lus_spelling.specs.Reading.{opening_of, deep_at};
ghost use Rattle.lus_grammar.specs.Rules.{entry_of};
ghost use Rattle.lus_grammar.specs.Answers.{Fails};

use crate::fault::{ParseError, Tokens};
use lus_syntax::{Symbol, TokenKind, Word};

/// The loosest rule that may begin where an expression is read; each tighter one may as well.
#[derive(Clone, Copy)]
pub enum Entry {
    Choice,
    Negation,
    Signed,
    Primary,
}

fn begins(entry: Entry, kind: &TokenKind) -> bool
    ensures { result ≡ nat_le (entry_of entry) (opening_of (kind_seen kind.now)) }
{
    match kind {
        TokenKind::Number(_)
        | TokenKind::Identifier(_)
        | TokenKind::Keyword(Word::True | Word::False | Word::Merge | Word::Nor)
        | TokenKind::Punctuation(Symbol::Open | Symbol::Sharp) => true,
        TokenKind::Keyword(Word::Pre) | TokenKind::Punctuation(Symbol::Minus) => {
            matches!(entry, Entry::Choice | Entry::Negation | Entry::Signed)
        }
        TokenKind::Keyword(Word::Not) => matches!(entry, Entry::Choice | Entry::Negation),
        TokenKind::Keyword(Word::If) => matches!(entry, Entry::Choice),
        _ => false,
    }
}

/// The fault where no depth is left: what begins an expression there is too deep.
pub fn nothing_left(entry: Entry, tokens: Tokens<'_>) -> ParseError
    ensures { Fails result (deep_at (entry_of entry) (tokens_seen tokens.now)) }
{
    match tokens {
        [first, ..] if begins(entry, &first.kind) => ParseError::Deep(tokens.len()),
        _ => ParseError::Syntax(tokens.len()),
    }
}
