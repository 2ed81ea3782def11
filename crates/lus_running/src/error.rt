//! Why a step gives no outputs.

use thiserror::Error;

/// The instant has no values, or a growth was refused.
#[derive(Clone, Copy, Debug, PartialEq, Eq, Error)]
pub enum StepError {
    #[error("the instant has no values")]
    Fault,
    #[error("out of memory")]
    Memory,
}
