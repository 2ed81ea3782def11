//! Declarations of constants.

ghost use Rattle.std.specs.Prelude.{option_map};
ghost use Rattle.lus_syntax.specs.Trees as plain;
ghost use Rattle.lus_syntax.specs.View.{tokens_seen, type_name_seen, literal_seen, constant_seen};
ghost use Rattle.lus_grammar.specs.Answers.{Gives, read_as};
ghost use Rattle.lus_spelling.specs.ReadingDeclarations.{at_name, negative_at, literal_at, type_of_at, constant_at};

use crate::fault::{ParseError, Parsed, Tokens};
use crate::front::{at_name, expect_symbol, identifier, name, symbol};
use crate::lists::Items;
use crate::types::type_name;
use lus_syntax::{Constant, Literal, Span, Symbol, Token, TokenKind, TypeName, Word};
use std::alloc::Global;

/// The number after a minus.
#[tactic(auto, unfolding(lus_spelling::specs::ReadingDeclarations::negative_at))]
fn negative(minus: Span, tokens: Tokens<'_>) -> Parsed<'_, Literal>
    ensures { Gives (read_as literal_seen) result (negative_at minus (tokens_seen tokens.now)) }
{
    if let Some((first, rest)) = tokens.split_first() {
        if let TokenKind::Number(number) = first.kind {
            return Ok((Literal::Negative(minus, number, first.span), rest));
        }
    }
    Err(ParseError::Syntax(tokens.len()))
}

/// A constant's value.
#[tactic(auto, unfolding(lus_spelling::specs::ReadingDeclarations::literal_at))]
fn literal(alloc: Global, tokens: Tokens<'_>) -> Parsed<'_, Literal>
    ensures { Gives (read_as literal_seen) result (literal_at (tokens_seen tokens.now)) }
{
    let Some((&Token { kind, span }, rest)) = tokens.split_first() else {
        return Err(ParseError::Syntax(0));
    };
    match kind {
        TokenKind::Number(number) => Ok((Literal::Number(number, span), rest)),
        TokenKind::Punctuation(Symbol::Minus) => negative(span, rest),
        TokenKind::Keyword(Word::True) => Ok((Literal::Truth(true, span), rest)),
        TokenKind::Keyword(Word::False) => Ok((Literal::Truth(false, span), rest)),
        TokenKind::Identifier(text) => Ok((Literal::Constructor(name(alloc, text, span)?), rest)),
        _ => Err(ParseError::Syntax(tokens.len())),
    }
}

/// A type that may be written.
#[tactic(auto, unfolding(lus_spelling::specs::ReadingDeclarations::type_of_at))]
fn type_of(alloc: Global, tokens: Tokens<'_>) -> Parsed<'_, Option<TypeName>>
    ensures { Gives (λ x. (option_map type_name_seen x.0, tokens_seen x.1.now)) result (type_of_at (tokens_seen tokens.now)) }
{
    match symbol(Symbol::Colon, tokens) {
        None => Ok((None, tokens)),
        Some((_, rest)) => {
            let (type_name, rest) = type_name(alloc, rest)?;
            Ok((Some(type_name), rest))
        }
    }
}

/// What stands after `const`.
pub struct ConstantList;

impl Items for ConstantList {
    type Item = Constant;

    ghost Seen = { plain.Constant };

    ghost seen = { constant_seen };

    ghost next = { at_name };

    ghost item = { constant_at };

    fn next(tokens: Tokens<'_>) -> Option<Tokens<'_>> {
        at_name(tokens)
    }

    #[tactic(auto, unfolding(lus_spelling::specs::ReadingDeclarations::constant_at))]
    fn item(alloc: Global, tokens: Tokens<'_>) -> Parsed<'_, Constant> {
        let (name, rest) = identifier(alloc, tokens)?;
        let (type_name, rest) = type_of(alloc, rest)?;
        let rest = expect_symbol(Symbol::Equal, rest)?;
        let (value, rest) = literal(alloc, rest)?;
        let rest = expect_symbol(Symbol::Semicolon, rest)?;
        let constant = Constant {
            name,
            type_name,
            value,
        };
        Ok((constant, rest))
    }
}
