//! A source with another name in it. Nothing is promised of it: `keeping` says whether it may be given.

use lus_faults::bytes_at;
use lus_occurrences::Names;
use std::alloc::{AllocError, Global};

/// The source with another name wherever a declaration's stands.
pub(crate) fn with_name(
    alloc: Global,
    source: &str,
    names: &Names<'_>,
    declaration: usize,
    name: &str,
) -> Result<String, AllocError> {
    let mut made = String::new(alloc);
    let mut from = 0;
    for occurrence in &names.occurrences {
        if occurrence.declaration == declaration
            && let Some(span) = names.span_of(occurrence.token)
        {
            made.push_str(bytes_at(source, from, span.start.byte).unwrap_or(""))?;
            made.push_str(name)?;
            from = span.end().byte;
        }
    }
    made.push_str(bytes_at(source, from, source.len()).unwrap_or(""))?;
    Ok(made)
}
