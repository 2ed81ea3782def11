//! Why a file isn't laid out.

use crate::replacing::Unreplaced;
use lus_devices::ReadError;
use lus_format::FormatError;
use lus_syntax::{Refusal, RefusalNumber};
use thiserror::Error;

/// Why a file isn't laid out.
#[derive(Debug, Drop, Error)]
pub enum Problem {
    #[error("error {0}")]
    Refused(Refusal),
    #[error("error layout: this is a fault of lus_format, which left the file as it is")]
    Layout,
    #[error("error file")]
    File,
    #[error("error file: it may not be written, and stays as it is")]
    Locked,
    #[error("error output")]
    Output,
    #[error("error output: it may be half written, and the file {0} has its whole new text")]
    Begun(String),
    #[error("error memory")]
    Memory,
}

impl Problem {
    /// The status of the process, as that of `lus`.
    pub fn status(&self) -> u8 {
        match self {
            Problem::Refused(_) | Problem::Layout => 1,
            Problem::File | Problem::Locked | Problem::Output | Problem::Begun(_) => 3,
            Problem::Memory => 4,
        }
    }
}

impl From<Refusal> for Problem {
    fn from(refusal: Refusal) -> Problem {
        if refusal.number == RefusalNumber::Memory {
            return Problem::Memory;
        }
        Problem::Refused(refusal)
    }
}

impl From<FormatError> for Problem {
    fn from(error: FormatError) -> Problem {
        match error {
            FormatError::Refused(refusal) => Problem::from(refusal),
            FormatError::Layout => Problem::Layout,
        }
    }
}

impl From<ReadError> for Problem {
    fn from(error: ReadError) -> Problem {
        match error {
            ReadError::Read => Problem::File,
            ReadError::Memory => Problem::Memory,
        }
    }
}

impl From<Unreplaced> for Problem {
    fn from(error: Unreplaced) -> Problem {
        match error {
            Unreplaced::Locked => Problem::Locked,
            Unreplaced::Failed => Problem::Output,
            Unreplaced::Begun(beside) => Problem::Begun(beside),
        }
    }
}
