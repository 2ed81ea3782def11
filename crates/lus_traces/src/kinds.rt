//! The kinds of signals.

use crate::runs::Run;
use crate::trace::SignalKind;
use lus_values::Value;

/// The kind that is given, or texts where a value is none of it.
pub(crate) fn kind_of(given: SignalKind, runs: &[Run<'_>]) -> SignalKind {
    let fits = match given {
        SignalKind::Truth => runs.iter().all(|run| matches!(run.value, Value::Bool(_))),
        SignalKind::Number => runs.iter().all(|run| matches!(run.value, Value::Int(_))),
        SignalKind::Text => true,
    };
    if fits { given } else { SignalKind::Text }
}
