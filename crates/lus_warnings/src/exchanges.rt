//! First values on the wrong side of `fby` or `->`.

use crate::kind::Kind;
use crate::same::text_of;
use crate::warning::warning;
use lus_diagnostics::Diagnostic;
use lus_faults::{Exchanged, extent_of};
use std::alloc::{AllocError, Global};

/// The warning of a `fby` or `->` whose sides seem to be exchanged.
pub(crate) fn of_exchange(
    alloc: Global,
    source: &str,
    found: Exchanged<'_>,
) -> Result<Diagnostic, AllocError> {
    let (operator, later) = (found.operator, text_of(source, found.right));
    let sentence = format!(in alloc;
        "this `{operator}` is `{later}` at every instant but the first"
    )?;
    let span = extent_of(source, found.expr);
    let mut told = warning(alloc, Kind::ExchangedSides, span, sentence, found.note())?;
    told.edit = Some(found.edit(alloc, source)?);
    Ok(told)
}
