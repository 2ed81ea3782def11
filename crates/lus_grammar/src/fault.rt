//! Why tokens are refused.

ghost use Rattle.std.specs.Prelude.{◌≡◌};
ghost use Rattle.lus_grammar.specs.declared.fault.ParseError.TheVariants.{Memory};

use lus_syntax::{Expr, Token};
use std::alloc::{AllocError, AllocFailed};

/// Tokens that are still to be read.
pub type Tokens<'a> = &'a [Token<'a>];

/// What is read, and the tokens after it.
pub type Parsed<'a, T> = Result<(T, Tokens<'a>), ParseError>;

/// An expression, its depth, and the tokens after it.
pub type Read<'a> = Result<(Box<Expr>, u32, Tokens<'a>), ParseError>;

/// A fault, with how many tokens were left where it was met.
#[derive(Debug, Drop)]
pub enum ParseError {
    Memory,
    /// The tokens spell no tree.
    Syntax(usize),
    /// They spell no tree within the limit.
    Deep(usize),
}

impl From<AllocError> for ParseError {
    ghost from_gives = { λ _ e. e ≡ Memory };

    fn from(_e: AllocError) -> ParseError {
        ParseError::Memory
    }
}

impl<T: Drop> From<AllocFailed<T>> for ParseError {
    ghost from_gives = { λ _ e. e ≡ Memory };

    fn from(_e: AllocFailed<T>) -> ParseError {
        ParseError::Memory
    }
}
