//! Why a journal isn't gone on from.

use lus_lines::LineError;
use lus_values::Memory as OfMemory;
use thiserror::Error;

/// Why a journal isn't gone on from. Lines are counted from 1.
#[derive(Clone, Copy, Debug, PartialEq, Eq, Error)]
pub enum RecoveryError {
    #[error("a line is none of the journal")]
    Line(u64),
    #[error("a reply isn't the right one")]
    Wrong(u64),
    #[error("a read failed")]
    Read,
    #[error("out of memory")]
    Memory,
}

impl From<LineError> for RecoveryError {
    fn from(error: LineError) -> RecoveryError {
        match error {
            LineError::Read => RecoveryError::Read,
            LineError::Memory => RecoveryError::Memory,
        }
    }
}

impl From<OfMemory> for RecoveryError {
    fn from(_error: OfMemory) -> RecoveryError {
        RecoveryError::Memory
    }
}
