//! Why a text has no tokens.

ghost use Rattle.std.specs.Prelude.{◌≡◌, []};
ghost use Rattle.lus_syntax.specs.declared.fault.LexError.TheVariants.{Memory as OutOfMemory};
ghost use Rattle.lus_syntax.specs.Reading.{IsNumbered, RefusedAs};

use crate::refusal::{Refusal, RefusalNumber};
use crate::token::Place;
use std::alloc::{AllocError, AllocFailed};

/// Why a text has no tokens.
#[derive(Drop)]
pub(crate) enum LexError {
    /// Out of memory.
    Memory,
    /// What is wrong, and where.
    Fault(RefusalNumber, Place),
}

impl LexError {
    /// The refusal that a caller gets.
    pub(crate) fn refusal(self) -> Refusal
        requires { IsNumbered self }
        ensures refused { RefusedAs self result }
        ensures cycle { result.cycle ≡ [] }
    {
        match self {
            LexError::Memory => Refusal::memory(),
            LexError::Fault(number, place) => Refusal::new(number, place.line, place.column),
        }
    }
}

impl From<AllocError> for LexError {
    ghost from_gives = { λ _ e. e ≡ OutOfMemory };

    fn from(_error: AllocError) -> LexError {
        LexError::Memory
    }
}

impl<T: Drop> From<AllocFailed<T>> for LexError {
    ghost from_gives = { λ _ e. e ≡ OutOfMemory };

    fn from(_error: AllocFailed<T>) -> LexError {
        LexError::Memory
    }
}
