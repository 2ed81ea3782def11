//! Rows once more.

ghost use Rattle.std.specs.Prelude.{◌≡◌, IfOk};
ghost use Rattle.lus_values.specs.View.{entry_of};

use lus_instructions::copy_value;
use lus_values::{Memory, Row, Value};
use std::alloc::Global;

/// An equal entry; only a structure is walked.
#[inline(always)]
fn entry_again(alloc: Global, entry: &Option<Value>) -> Result<Option<Value>, Memory>
    ensures { IfOk result (λ e. entry_of e ≡ entry_of entry.now) }
{
    match entry {
        Some(value) => copy_value(alloc, value),
        None => Ok(None),
    }
}

/// An equal row, in no more memory than it needs.
fn row_again(alloc: Global, row: &Row) -> Result<Row, Memory>
    ensures { IfOk result (λ r. r ≡ row.now) }
{
    let entries = row.items();
    if let [entry] = entries {
        return Ok(Row::one(entry_again(alloc, entry)?));
    }
    let mut again = Vec::with_capacity(alloc, entries.len())?;
    for entry in entries {
        let entry_copy = entry_again(alloc, entry)?;
        again.push_reserved(entry_copy);
    }
    Ok(Row::new(again))
}

/// A row, and an equal one in no more memory than it needs.
pub(crate) fn row_twice(alloc: Global, row: Row) -> Result<(Row, Row), Memory>
    ensures row { IfOk result (λ both. both.0 ≡ row) }
    ensures same { IfOk result (λ both. both.1 ≡ row) }
{
    let again = row_again(alloc, &row)?;
    Ok((row, again))
}
