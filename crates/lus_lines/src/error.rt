//! Why a line could not be read.

ghost use Rattle.std.specs.Prelude.{◌≡◌};
ghost use Rattle.lus_lines.specs.declared.error.LineError.TheVariants as lines;

use lus_devices::Failure;
use std::alloc::AllocFailed;
use thiserror::Error;

/// Why a line could not be read.
#[derive(Clone, Copy, Debug, PartialEq, Eq, Error)]
pub enum LineError {
    #[error("a read failed")]
    Read,
    #[error("out of memory")]
    Memory,
}

impl From<Failure> for LineError {
    ghost from_gives = { λ _ e. e ≡ lines.Read };

    fn from(_failure: Failure) -> LineError {
        LineError::Read
    }
}

impl<T: Drop> From<AllocFailed<T>> for LineError {
    ghost from_gives = { λ _ e. e ≡ lines.Memory };

    fn from(_error: AllocFailed<T>) -> LineError {
        LineError::Memory
    }
}
