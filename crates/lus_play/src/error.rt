//! Why a play stopped.

ghost use Rattle.std.specs.Prelude.{◌≡◌};
ghost use Rattle.lus_play.specs.Plays.{line_fault};
ghost use Rattle.lus_play.specs.declared.error.PlayError.TheVariants.{Memory as OutOfMemory};

use lus_lines::LineError;
use lus_values::Memory as OfMemory;
use thiserror::Error;

/// Why a play stopped before the end of its lines.
#[derive(Clone, Copy, Debug, PartialEq, Eq, Error)]
pub enum PlayError {
    #[error("a read failed")]
    Read,
    #[error("a write failed")]
    Write,
    #[error("out of memory")]
    Memory,
    #[error("there are too many lines")]
    Full,
}

impl From<LineError> for PlayError {
    ghost from_gives = { λ l e. e ≡ line_fault l };

    fn from(error: LineError) -> PlayError {
        match error {
            LineError::Read => PlayError::Read,
            LineError::Memory => PlayError::Memory,
        }
    }
}

impl From<OfMemory> for PlayError {
    ghost from_gives = { λ _ e. e ≡ OutOfMemory };

    fn from(_error: OfMemory) -> PlayError {
        PlayError::Memory
    }
}
