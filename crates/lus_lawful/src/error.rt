//! Why an audit stopped.

ghost use Rattle.lus_lawful.specs.Errors.{IsOutside};

use lus_lines::LineError;
use lus_values::Memory as OfMemory;
use thiserror::Error;

/// Why an audit stopped before the end of the journals.
#[derive(Clone, Copy, Debug, PartialEq, Eq, Error)]
pub enum AuditError {
    #[error("a line is none of a journal")]
    Line(u64),
    #[error("a read failed")]
    Read,
    #[error("out of memory")]
    Memory,
}

impl From<LineError> for AuditError {
    ghost from_gives = { λ _ e. IsOutside e };

    fn from(error: LineError) -> AuditError {
        match error {
            LineError::Read => AuditError::Read,
            LineError::Memory => AuditError::Memory,
        }
    }
}

impl From<OfMemory> for AuditError {
    ghost from_gives = { λ _ e. IsOutside e };

    fn from(_error: OfMemory) -> AuditError {
        AuditError::Memory
    }
}
