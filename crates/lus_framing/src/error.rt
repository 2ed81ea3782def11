//! Why a frame could not be read.

use lus_devices::Failure;
use lus_lines::LineError;
use std::alloc::AllocError;
use thiserror::Error;

/// Why a frame could not be read.
#[derive(Clone, Copy, Debug, PartialEq, Eq, Error)]
pub enum FrameError {
    #[error("a read failed")]
    Read,
    #[error("out of memory")]
    Memory,
    #[error("the head of a message doesn't say how many bytes follow")]
    Head,
    /// The head of a message was read that has so many bytes.
    #[error("a message has too many bytes")]
    Long(usize),
    #[error("the input ends in a message")]
    End,
}

impl From<LineError> for FrameError {
    fn from(error: LineError) -> FrameError {
        match error {
            LineError::Read => FrameError::Read,
            LineError::Memory => FrameError::Memory,
        }
    }
}

impl From<Failure> for FrameError {
    fn from(_failure: Failure) -> FrameError {
        FrameError::Read
    }
}

impl From<AllocError> for FrameError {
    fn from(_error: AllocError) -> FrameError {
        FrameError::Memory
    }
}
