//! Why scripts are refused.

ghost use Rattle.std.specs.Prelude.{◌≡◌};
ghost use Rattle.lus_scripts.specs.declared.refusal.ScriptRefusal.TheVariants.{Memory};

use std::alloc::{AllocError, AllocFailed};
use thiserror::Error;

/// Why scripts were refused. Printed as S1 to S6, in this order.
#[derive(Clone, Copy, Debug, PartialEq, Eq, Error)]
pub enum ScriptRefusal {
    #[error("the scripts are no JSON")]
    Json,
    #[error("the scripts have another form")]
    Form,
    #[error("an unknown node or instance")]
    Unknown,
    #[error("a name stands twice")]
    Double,
    #[error("a limit is passed")]
    Limit,
    #[error("out of memory")]
    Memory,
}

impl From<AllocError> for ScriptRefusal {
    ghost from_gives = { λ _ e. e ≡ Memory };

    fn from(_error: AllocError) -> ScriptRefusal {
        ScriptRefusal::Memory
    }
}

impl<T: Drop> From<AllocFailed<T>> for ScriptRefusal {
    ghost from_gives = { λ _ e. e ≡ Memory };

    fn from(_error: AllocFailed<T>) -> ScriptRefusal {
        ScriptRefusal::Memory
    }
}
