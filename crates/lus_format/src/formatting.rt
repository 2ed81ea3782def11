//! A source laid out.

ghost use Rattle.std.specs.Prelude.{◌≡◌, IfErr, IfOk, IsTrue, string_bytes};
ghost use Rattle.lus_syntax.specs.Lexemes.{Text};
ghost use Rattle.lus_edits.specs.Kept.{KeepsComments, KeepsTokens};
ghost use Rattle.lus_format.specs.Formats.{IsFormatRefusal, Keeps};

use crate::error::FormatError;
use lus_edits::{keeps_comments, keeps_tokens};
use lus_grammar::parse;
use lus_layout::laid_out;
use lus_syntax::{Refusal, RefusalNumber, lex};
use std::alloc::Global;

/// The most columns of a line, where no others are asked.
pub const WIDTH: u32 = 100;

/// How often a text is laid out at most, until that changes nothing.
const MOST_ROUNDS: u32 = 4;

/// A text laid out once.
fn lay_out(alloc: Global, source: &str, width: u32) -> Result<String, FormatError>
    ensures { IfErr result (λ e. IsFormatRefusal source.now e) }
{
    let tokens = lex(alloc, source)?;
    let tree = match parse(alloc, &tokens) {
        Ok(tree) => tree,
        Err(refusal) => return Err(FormatError::Refused(refusal)),
    };
    let text = laid_out(alloc, source.as_bytes(), &tokens, &tree, width)?;
    match String::from_utf8(text) {
        Ok(made) => Ok(made),
        Err(_) => Err(FormatError::Layout),
    }
}

/// The error of a text that was made here. But for memory it is no fault of a source.
fn own_error(error: FormatError) -> FormatError
    ensures { (text : Text) → IsFormatRefusal text result }
{
    match error {
        FormatError::Refused(refusal) if refusal.number == RefusalNumber::Memory => {
            FormatError::Refused(Refusal::memory())
        }
        _ => FormatError::Layout,
    }
}

/// A text laid out until that changes nothing.
fn settled(alloc: Global, source: &str, width: u32) -> Result<String, FormatError>
    ensures { IfErr result (λ e. IsFormatRefusal source.now e) }
{
    let mut made = lay_out(alloc, source, width)?;
    for _ in 1..MOST_ROUNDS {
        let again = match lay_out(alloc, made.as_str(), width) {
            Ok(again) => again,
            Err(error) => return Err(own_error(error)),
        };
        if again.as_str() == made.as_str() {
            break;
        }
        made = again;
    }
    Ok(made)
}

/// Whether another text has the same tokens and the same comments.
fn keeps(alloc: Global, source: &str, made: &str) -> Result<bool, Refusal>
    ensures { IfOk result (λ keeps. IsTrue keeps → Keeps source.now made.now) }
{
    Ok(keeps_tokens(alloc, source, made)? && keeps_comments(alloc, source, made)?)
}

/// A source laid out on lines of at most so many columns, as far as its comments and what can't be broken let them.
///
/// What is made has the source's tokens and its comments, each behind as many tokens. A source without tokens, or whose tokens spell
/// no tree, is refused as `lex` and `parse` refuse it.
pub fn format_to(alloc: Global, source: &str, width: u32) -> Result<String, FormatError>
    ensures tokens { IfOk result (λ made. KeepsTokens source.now (string_bytes made)) }
    ensures comments { IfOk result (λ made. KeepsComments source.now (string_bytes made)) }
    ensures refused { IfErr result (λ e. IsFormatRefusal source.now e) }
{
    let made = settled(alloc, source, width)?;
    match keeps(alloc, source, made.as_str()) {
        Ok(true) => Ok(made),
        Ok(false) => Err(FormatError::Layout),
        Err(refusal) => Err(own_error(FormatError::Refused(refusal))),
    }
}

/// A source laid out on lines of at most 100 columns, as `format_to` does it.
pub fn format(alloc: Global, source: &str) -> Result<String, FormatError>
    ensures tokens { IfOk result (λ made. KeepsTokens source.now (string_bytes made)) }
    ensures comments { IfOk result (λ made. KeepsComments source.now (string_bytes made)) }
    ensures refused { IfErr result (λ e. IsFormatRefusal source.now e) }
{
    format_to(alloc, source, WIDTH)
}
