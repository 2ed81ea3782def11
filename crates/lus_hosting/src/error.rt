//! Why a host stopped.

ghost use Rattle.std.specs.Prelude.{◌≡◌};
ghost use Rattle.lus_hosting.specs.Turns.{stop_of};

use lus_play::PlayError;
use thiserror::Error;

/// Why a host stopped before the end of its lines, which are counted from 1.
#[derive(Clone, Copy, Debug, PartialEq, Eq, Error)]
pub enum HostError {
    #[error("an entry isn't the next of its instance")]
    Line(u64),
    #[error("a reply isn't the right one")]
    Wrong(u64),
    #[error("a read failed")]
    Read,
    #[error("a write failed")]
    Write,
    #[error("out of memory")]
    Memory,
    #[error("there are too many lines")]
    Full,
}

impl From<PlayError> for HostError {
    ghost from_gives = { λ p e. e ≡ stop_of p };

    fn from(error: PlayError) -> HostError {
        match error {
            PlayError::Read => HostError::Read,
            PlayError::Write => HostError::Write,
            PlayError::Memory => HostError::Memory,
            PlayError::Full => HostError::Full,
        }
    }
}
