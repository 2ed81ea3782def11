//! Tokens at the front: symbols, words, names, labels and tests.

ghost use Rattle.std.specs.Prelude.{◌≡◌, Ok, option_map};
ghost use Rattle.lus_syntax.specs.Lexemes.{Sign, Keyword};
ghost use Rattle.lus_syntax.specs.Trees.{named};
ghost use Rattle.lus_syntax.specs.View.{tokens_seen, name_seen, label_seen, test_seen};
ghost use Rattle.lus_spelling.specs.Reading.{front, expect, identifier_at, label_at, closed_name_at, test_at};
ghost use Rattle.lus_spelling.specs.ReadingDeclarations.{skip, further, at_name};
ghost use Rattle.lus_grammar.specs.Answers.{Gives};

use crate::fault::{ParseError, Tokens};
use lus_syntax::{Label, Name, Span, Symbol, Test, Token, TokenKind, Word};
use std::alloc::Global;

/// A symbol at the front: its span, and the tokens after it.
pub fn symbol(wanted: Symbol, tokens: Tokens<'_>) -> Option<(Span, Tokens<'_>)>
    ensures { option_map (λ x. (x.0, tokens_seen x.1.now)) result ≡ front (Sign wanted) (tokens_seen tokens.now) }
{
    let (first, rest) = tokens.split_first()?;
    match first.kind {
        TokenKind::Punctuation(found) if found == wanted => Some((first.span, rest)),
        _ => None,
    }
}

/// A word at the front: its span, and the tokens after it.
pub fn word(wanted: Word, tokens: Tokens<'_>) -> Option<(Span, Tokens<'_>)>
    ensures { option_map (λ x. (x.0, tokens_seen x.1.now)) result ≡ front (Keyword wanted) (tokens_seen tokens.now) }
{
    let (first, rest) = tokens.split_first()?;
    match first.kind {
        TokenKind::Keyword(found) if found == wanted => Some((first.span, rest)),
        _ => None,
    }
}

/// The tokens after a symbol that has to stand.
pub fn expect_symbol(wanted: Symbol, tokens: Tokens<'_>) -> Result<Tokens<'_>, ParseError>
    ensures { Gives (λ x. tokens_seen x.now) result (expect (Sign wanted) (tokens_seen tokens.now)) }
{
    match symbol(wanted, tokens) {
        None => Err(ParseError::Syntax(tokens.len())),
        Some((_, rest)) => Ok(rest),
    }
}

/// The tokens after a word that has to stand.
pub fn expect_word(wanted: Word, tokens: Tokens<'_>) -> Result<Tokens<'_>, ParseError>
    ensures { Gives (λ x. tokens_seen x.now) result (expect (Keyword wanted) (tokens_seen tokens.now)) }
{
    match word(wanted, tokens) {
        None => Err(ParseError::Syntax(tokens.len())),
        Some((_, rest)) => Ok(rest),
    }
}

/// The tokens after a symbol that may stand.
pub fn skip_symbol(wanted: Symbol, tokens: Tokens<'_>) -> Tokens<'_>
    ensures { tokens_seen result.now ≡ skip (Sign wanted) (tokens_seen tokens.now) }
{
    if let Some((_, rest)) = symbol(wanted, tokens) {
        return rest;
    }
    tokens
}

/// The tokens after a semicolon that isn't the last before `close`.
pub fn further(close: Symbol, tokens: Tokens<'_>) -> Option<Tokens<'_>>
    ensures { option_map (λ x. tokens_seen x.now) result ≡ further close (tokens_seen tokens.now) }
{
    let (_, rest) = symbol(Symbol::Semicolon, tokens)?;
    match symbol(close, rest) {
        None => Some(rest),
        Some(_) => None,
    }
}

/// What is found before any token is read, and the tokens: a loop begins with such a pair as each of its turns ends with.
pub fn begun<T>(found: T, tokens: Tokens<'_>) -> (T, Tokens<'_>)
    ensures { result ≡ (found, tokens.entry) }
{
    (found, tokens)
}

/// The tokens, where a name stands at the front.
pub fn at_name(tokens: Tokens<'_>) -> Option<Tokens<'_>>
    ensures { option_map (λ x. tokens_seen x.now) result ≡ at_name (tokens_seen tokens.now) }
{
    match tokens {
        [first, ..] if matches!(first.kind, TokenKind::Identifier(_)) => Some(tokens),
        _ => None,
    }
}

/// The name that a token spells.
pub fn name(alloc: Global, text: &str, span: Span) -> Result<Name, ParseError>
    ensures { Gives name_seen result (Ok (named text.now span)) }
{
    let text = String::from_str(alloc, text)?;
    Ok(Name { text, span })
}

/// A name at the front.
#[tactic(auto, unfolding(lus_spelling::specs::Reading::identifier_at))]
pub fn identifier(alloc: Global, tokens: Tokens<'_>) -> Result<(Name, Tokens<'_>), ParseError>
    ensures { Gives (λ x. (name_seen x.0, tokens_seen x.1.now)) result (identifier_at (tokens_seen tokens.now)) }
{
    if let Some((first, rest)) = tokens.split_first() {
        if let TokenKind::Identifier(text) = first.kind {
            return Ok((name(alloc, text, first.span)?, rest));
        }
    }
    Err(ParseError::Syntax(tokens.len()))
}

/// A constructor or a truth value at the front.
#[tactic(auto, unfolding(lus_spelling::specs::Reading::label_at))]
pub fn label(alloc: Global, tokens: Tokens<'_>) -> Result<(Label, Tokens<'_>), ParseError>
    ensures { Gives (λ x. (label_seen x.0, tokens_seen x.1.now)) result (label_at (tokens_seen tokens.now)) }
{
    let Some((&Token { kind, span }, rest)) = tokens.split_first() else {
        return Err(ParseError::Syntax(0));
    };
    match kind {
        TokenKind::Identifier(text) => Ok((Label::Constructor(name(alloc, text, span)?), rest)),
        TokenKind::Keyword(Word::True) => Ok((Label::Truth(true, span), rest)),
        TokenKind::Keyword(Word::False) => Ok((Label::Truth(false, span), rest)),
        _ => Err(ParseError::Syntax(tokens.len())),
    }
}

/// A name and a closing parenthesis.
#[tactic(auto, unfolding(lus_spelling::specs::Reading::closed_name_at))]
pub fn closed_name(alloc: Global, tokens: Tokens<'_>) -> Result<(Name, Tokens<'_>), ParseError>
    ensures { Gives (λ x. (name_seen x.0, tokens_seen x.1.now)) result (closed_name_at (tokens_seen tokens.now)) }
{
    let (name, rest) = identifier(alloc, tokens)?;
    let rest = expect_symbol(Symbol::Close, rest)?;
    Ok((name, rest))
}

/// The test after `when`.
#[tactic(auto, unfolding(lus_spelling::specs::Reading::test_at))]
pub fn test(alloc: Global, tokens: Tokens<'_>) -> Result<(Test, Tokens<'_>), ParseError>
    ensures { Gives (λ x. (test_seen x.0, tokens_seen x.1.now)) result (test_at (tokens_seen tokens.now)) }
{
    if let Some((span, rest)) = word(Word::Not, tokens) {
        if let Some((_, inside)) = symbol(Symbol::Open, rest) {
            let (name, rest) = closed_name(alloc, inside)?;
            return Ok((Test::Fails(span, name), rest));
        }
        let (name, rest) = identifier(alloc, rest)?;
        return Ok((Test::Fails(span, name), rest));
    }
    let (label, rest) = label(alloc, tokens)?;
    if let Some((_, inside)) = symbol(Symbol::Open, rest) {
        let (name, rest) = closed_name(alloc, inside)?;
        return Ok((Test::Is(label, name), rest));
    }
    match label {
        Label::Constructor(name) => Ok((Test::Holds(name), rest)),
        Label::Truth(_, _) => Err(ParseError::Syntax(rest.len())),
    }
}
