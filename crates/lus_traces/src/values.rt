//! Values that may be absent.

use lus_values::{Memory, Names, Value, print, same};
use std::alloc::Global;

/// Whether two entries are both absent, or equal.
pub(crate) fn same_entry(left: Option<&Value>, right: Option<&Value>) -> bool {
    match (left, right) {
        (Some(left), Some(right)) => same(left, right),
        (None, None) => true,
        _ => false,
    }
}

/// The text of an entry: `-` where it is absent.
pub(crate) fn entry_text(
    alloc: Global,
    names: &Names,
    entry: Option<&Value>,
) -> Result<String, Memory> {
    match entry {
        Some(value) => print(alloc, value, names),
        None => Ok(String::from_str(alloc, "-")?),
    }
}
