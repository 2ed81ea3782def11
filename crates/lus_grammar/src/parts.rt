//! What stands between the parts of a call, a structure or a merge, and round their values.

ghost use Rattle.lus_syntax.specs.View.{tokens_seen, lead_seen};
ghost use Rattle.lus_spelling.specs.Reading.{turn_at, lead_at, tail_at};
ghost use Rattle.lus_grammar.specs.Answers.{Gives};

use crate::fault::{ParseError, Tokens};
use crate::front::{expect_symbol, identifier, label, symbol};
use lus_spelling::Form;
use lus_syntax::{Lead, Symbol};
use std::alloc::Global;

/// Whether another part follows, and the tokens where it begins; or the tokens after the parts.
pub fn turn(form: Form, tokens: Tokens<'_>) -> Result<(bool, Tokens<'_>), ParseError>
    ensures { Gives (λ x. (x.0, tokens_seen x.1.now)) result (turn_at form (tokens_seen tokens.now)) }
{
    match form {
        Form::Call => {
            if let Some((_, rest)) = symbol(Symbol::Comma, tokens) {
                return Ok((true, rest));
            }
            let rest = expect_symbol(Symbol::Close, tokens)?;
            Ok((false, rest))
        }
        Form::Structure => {
            if let Some((_, rest)) = symbol(Symbol::Semicolon, tokens) {
                return match symbol(Symbol::CloseBrace, rest) {
                    Some((_, after)) => Ok((false, after)),
                    None => Ok((true, rest)),
                };
            }
            let rest = expect_symbol(Symbol::CloseBrace, tokens)?;
            Ok((false, rest))
        }
        Form::Merge => match symbol(Symbol::Open, tokens) {
            Some(_) => Ok((true, tokens)),
            None => Ok((false, tokens)),
        },
    }
}

/// What stands before the value of a part.
#[tactic(auto, unfolding(lus_spelling::specs::Reading::lead_at))]
pub fn lead(alloc: Global, form: Form, tokens: Tokens<'_>) -> Result<(Lead, Tokens<'_>), ParseError>
    ensures { Gives (λ x. (lead_seen x.0, tokens_seen x.1.now)) result (lead_at form (tokens_seen tokens.now)) }
{
    match form {
        Form::Call => Ok((Lead::Plain, tokens)),
        Form::Structure => {
            let (name, rest) = identifier(alloc, tokens)?;
            let rest = expect_symbol(Symbol::Equal, rest)?;
            Ok((Lead::Field(name), rest))
        }
        Form::Merge => match symbol(Symbol::Open, tokens) {
            None => Err(ParseError::Syntax(tokens.len())),
            Some((span, rest)) => {
                let (label, rest) = label(alloc, rest)?;
                let rest = expect_symbol(Symbol::Arrow, rest)?;
                let label = Box::new(alloc, label)?;
                Ok((Lead::Branch(span, label), rest))
            }
        },
    }
}

/// What stands after the value of a part.
pub fn tail(form: Form, tokens: Tokens<'_>) -> Result<Tokens<'_>, ParseError>
    ensures { Gives (λ x. tokens_seen x.now) result (tail_at form (tokens_seen tokens.now)) }
{
    match form {
        Form::Merge => expect_symbol(Symbol::Close, tokens),
        Form::Call | Form::Structure => Ok(tokens),
    }
}
