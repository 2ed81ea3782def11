//! Why a name isn't replaced.

use lus_syntax::Refusal;
use std::alloc::AllocError;
use thiserror::Error;

/// Why a name isn't replaced.
#[derive(Debug, Drop, Error)]
pub enum RenameError {
    /// At the place stands no name that is declared.
    #[error("no declared name stands here")]
    NoName,
    /// The new name is none.
    #[error("a name is a letter or `_`, then letters, digits and `_`, and no word of the language")]
    NotAName,
    /// Under the new name something else would be meant, here or where that name stands already.
    #[error("the program would not be the same under this name")]
    Changes,
    /// The refusal of the source's tokens, or out of memory.
    #[error("{0}")]
    Refused(Refusal),
}

impl From<Refusal> for RenameError {
    fn from(refusal: Refusal) -> RenameError {
        RenameError::Refused(refusal)
    }
}

impl From<AllocError> for RenameError {
    fn from(error: AllocError) -> RenameError {
        RenameError::Refused(Refusal::from(error))
    }
}
