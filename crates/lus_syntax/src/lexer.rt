//! A source's tokens, from left to right.

ghost use Rattle.std.specs.Prelude.{◌≡◌, ◌≢◌, ◌<◌, [], List, length, MatchResult, IfOk, IfErr};
ghost use Rattle.std.specs.List.{AllByRecursion};
ghost use Rattle.lus_syntax.specs.declared.refusal.RefusalNumber.{RefusalNumber};
ghost use Rattle.lus_syntax.specs.declared.token.Place.{Place};
ghost use Rattle.lus_syntax.specs.Gaps.{IsPlain, IsGap};
ghost use Rattle.lus_syntax.specs.Lexemes.{Lexeme};
ghost use Rattle.lus_syntax.specs.Reading.{HasRoom, IsFault, IsBreak, IsOpen, IsNext};
ghost use Rattle.lus_syntax.specs.Spans.{StandsIn, InOrder};
ghost use Rattle.lus_syntax.specs.Tokens.{Tokens, Faulty, Here, Wrong, IsAt, TellsFault};
ghost use Rattle.lus_syntax.specs.View.{token_seen, tokens_seen};

use crate::fault::LexError;
use crate::gap::{Skip, skip_at};
use crate::kind::kind_of;
use crate::place::past;
use crate::refusal::{Refusal, RefusalNumber};
use crate::text::text_len;
use crate::token::{Place, Span, Token};
use std::alloc::Global;

/// What is left behind blanks and comments, or the place of an open comment.
fn skip_gap(bytes: &[u8], start: Place) -> Result<(&[u8], Place), Place>
    requires { HasRoom start bytes.now }
    ensures { MatchResult result (λ x. IsGap start bytes.now x.1 x.0.now × IsPlain x.0.now) (λ to. IsOpen start bytes.now to) }
{
    let mut rest = bytes;
    let mut at = start;
    loop {
        match skip_at(rest) {
            Skip::Nothing => return Ok((rest, at)),
            Skip::Open => return Err(at),
            Skip::Bytes(n) => {
                let (piece, after) = rest.split_at(n);
                at = past(at, piece);
                rest = after;
            }
        }
    }
}

/// The token that stands here, and what stands behind it.
fn token_at(bytes: &[u8], start: Place) -> Result<(Token<'_>, &[u8]), RefusalNumber>
    requires room { HasRoom start bytes.now }
    requires plain { IsPlain bytes.now }
    requires some { 0 < length bytes.now }
    ensures found { IfOk result (λ x. Here bytes.now (token_seen x.0) x.1.now × (x.0.span.start ≡ start)) }
    ensures wrong { IfErr result (λ number. Wrong bytes.now number) }
{
    let Some(n) = text_len(bytes) else {
        return Err(RefusalNumber::Lexical);
    };
    let (text, rest) = bytes.split_at(n);
    let kind = kind_of(text)?;
    let token = Token {
        kind,
        span: Span { start, length: n },
    };
    Ok((token, rest))
}

/// The next token, and what stands behind it.
fn next_token(bytes: &[u8], at: Place) -> Result<Option<(Token<'_>, &[u8])>, LexError>
    requires { HasRoom at bytes.now }
    ensures { MatchResult result (λ o. IsNext at bytes.now o) (λ e. IsBreak at bytes.now e) }
{
    match skip_gap(bytes, at) {
        Err(open) => Err(LexError::Fault(RefusalNumber::Lexical, open)),
        Ok((here, start)) => {
            if here.is_empty() {
                return Ok(None);
            }
            match token_at(here, start) {
                Ok(found) => Ok(Some(found)),
                Err(number) => Err(LexError::Fault(number, start)),
            }
        }
    }
}

fn tokens_of(alloc: Global, text: &str) -> Result<Vec<Token<'_>>, LexError>
    ensures found { IfOk result (λ v. Tokens text.now (tokens_seen v.items)) }
    ensures fault { IfErr result (λ e. IsFault text.now e) }
{
    let mut tokens = Vec::new(alloc);
    let mut rest = text.as_bytes();
    let mut at = Place::START;
    while let Some((token, after)) = next_token(rest, at)? {
        at = token.span.end();
        rest = after;
        tokens.push(token)?;
    }
    Ok(tokens)
}

/// The tokens of a source. A refusal is `Lexical`, `Unsupported` or `Limit`, whichever stands leftmost, at the line and
/// column where its text begins, or `Memory`.
pub fn lex(alloc: Global, text: &str) -> Result<Vec<Token<'_>>, Refusal>
    // What is read is the text's tokens.
    ensures found { IfOk result (λ v. Tokens text.now (tokens_seen v.items)) }
    // A text's tokens are read, unless memory runs out.
    ensures only { (ts : List Lexeme) → Tokens text.now ts
        → MatchResult result (λ v. tokens_seen v.items ≡ ts) (λ e. e.number ≡ RefusalNumber.Memory) }

    // A refusal tells the text's leftmost fault.
    ensures fault { IfErr result (λ e. e.number ≢ RefusalNumber.Memory → TellsFault text.now e) }
    // A text with a fault is refused with it, unless memory runs out.
    ensures refused { (number : RefusalNumber) (place : Place) → Faulty text.now number place
        → MatchResult result (λ _. ⊥) (λ e. e.number ≢ RefusalNumber.Memory → IsAt e number place) }
    // No refusal has a cycle.
    ensures cycle { IfErr result (λ e. e.cycle ≡ []) }

    // Each token's text is the slice at its span, and spans are in order.
    ensures spans { IfOk result (λ v. AllByRecursion (StandsIn text.now) (tokens_seen v.items) × InOrder 0 (tokens_seen v.items)) }
{
    match tokens_of(alloc, text) {
        Ok(tokens) => Ok(tokens),
        Err(error) => Err(error.refusal()),
    }
}
