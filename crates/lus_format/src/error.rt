//! Why a source isn't laid out.

ghost use Rattle.std.specs.Prelude.{◌≡◌};
ghost use Rattle.lus_syntax.specs.Refusals.{out_of_memory};
ghost use Rattle.lus_format.specs.declared.error.FormatError.TheVariants.{Refused};

use lus_syntax::Refusal;
use std::alloc::AllocError;
use thiserror::Error;

/// Why a source isn't laid out.
#[derive(Debug, Drop, Error)]
pub enum FormatError {
    /// The refusal of its tokens or of its tree, or out of memory.
    #[error("{0}")]
    Refused(Refusal),
    /// The layout would have changed more than blanks: a fault of this program, and not of the source.
    #[error("the layout would change more than blanks")]
    Layout,
}

impl From<Refusal> for FormatError {
    ghost from_gives = { λ refusal e. e ≡ Refused refusal };

    fn from(refusal: Refusal) -> FormatError {
        FormatError::Refused(refusal)
    }
}

impl From<AllocError> for FormatError {
    ghost from_gives = { λ _ e. e ≡ Refused out_of_memory };

    fn from(error: AllocError) -> FormatError {
        FormatError::Refused(Refusal::from(error))
    }
}
