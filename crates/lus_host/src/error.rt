//! Why a check or a run ends before its end.

use lus_callers::HostError;
use lus_scripts::ScriptRefusal;
use lus_syntax::Refusal;
use thiserror::Error;

/// Why a check or a run ended before its end.
#[derive(Debug, Drop, Error)]
pub enum RunError {
    /// The program was refused.
    #[error("{0}")]
    Program(Refusal),
    /// The scripts were refused.
    #[error("{0}")]
    Scripts(ScriptRefusal),
    /// A device that is read failed.
    #[error("a read failed")]
    Read,
    /// The device that is written failed.
    #[error("a write failed")]
    Write,
    /// The callers were not run to their ends.
    #[error("callers were not run: {0}")]
    Host(HostError),
    #[error("out of memory")]
    Memory,
}
