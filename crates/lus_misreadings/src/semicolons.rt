//! A line without its semicolon, behind which names in parentheses seem to be arguments of a call.

use crate::edits::with_missing;
use crate::fault::{Fault, is_name};
use crate::saying::noted;
use crate::words::is_any;
use lus_faults::{Finding, slice_of};
use std::alloc::{AllocError, Global};

/// The place of the parenthesis that the one before the fault closes, if there are names with commas between the two.
fn names_before(fault: &Fault<'_>) -> Option<usize> {
    for back in 2..fault.place {
        let place = fault.place.saturating_sub(back);
        if is_any(fault.text(place), &["("]) {
            return (back > 2).then_some(place);
        }
        if !is_name(fault.tokens.get(place)) && !is_any(fault.text(place), &[","]) {
            return None;
        }
    }
    None
}

/// What is said of an equals sign behind names in parentheses that begin a line: of the semicolon that is missing before that line.
pub fn lacks_semicolon(alloc: Global, fault: &Fault<'_>) -> Result<Option<Finding>, AllocError> {
    if !is_any(fault.found(), &["="]) || !is_any(fault.before(1), &[")"]) {
        return Ok(None);
    }
    let Some(place) = names_before(fault) else {
        return Ok(None);
    };
    let (Some(before), Some(open)) = (
        fault.tokens.get(place.saturating_sub(1)),
        fault.tokens.get(place),
    ) else {
        return Ok(None);
    };
    let end = before.span.end();
    if end.line >= open.span.start.line
        || is_any(slice_of(fault.source, before.span), &[";", "let"])
    {
        return Ok(None);
    }
    let behind = slice_of(fault.source, before.span);
    let sentence = format!(in alloc; "expected `;` after `{behind}`")?;
    let finding = noted(alloc, Some(end), 1, sentence, "")?;
    Ok(Some(finding.with_edit(with_missing(alloc, fault, ";", before)?)))
}
