//! Names that another declaration has.

use crate::keeping::is_refused;
use lus_occurrences::{Declared, Names};
use std::alloc::{AllocError, Global};

/// Whether another field of a type has a name.
fn is_field(names: &Names<'_>, field: usize, owner: Option<usize>, name: &str) -> bool {
    for (place, other) in names.declarations.iter().enumerate() {
        let is_beside = other.declared == Declared::Field && other.owner == owner;
        if is_beside && place != field && names.name(place) == name {
            return true;
        }
    }
    false
}

/// Whether another declaration that is in scope at a byte has a name.
fn is_in_scope(
    alloc: Global,
    names: &Names<'_>,
    declaration: usize,
    byte: usize,
    name: &str,
) -> Result<bool, AllocError> {
    for place in &names.in_scope(alloc, byte)? {
        if *place != declaration && names.name(*place) == name {
            return Ok(true);
        }
    }
    Ok(false)
}

/// Whether any declaration has a name.
fn is_declared(names: &Names<'_>, name: &str) -> bool {
    for place in 0..names.declarations.len() {
        if names.name(place) == name {
            return true;
        }
    }
    false
}

/// Whether another declaration has a name and is in scope at one of the places where a declaration is named.
fn is_met(
    alloc: Global,
    names: &Names<'_>,
    declaration: usize,
    name: &str,
) -> Result<bool, AllocError> {
    for (span, _usage) in &names.spans_of(alloc, declaration)? {
        if is_in_scope(alloc, names, declaration, span.start.byte, name)? {
            return Ok(true);
        }
    }
    Ok(false)
}

/// Whether another declaration has a name: of a field another one of its type, of what else is declared one that is in scope where it is
/// named.
fn is_taken(
    alloc: Global,
    names: &Names<'_>,
    declaration: usize,
    name: &str,
) -> Result<bool, AllocError> {
    match names.declarations.get(declaration) {
        Some(field) if field.declared == Declared::Field => {
            Ok(is_field(names, declaration, field.owner, name))
        }
        _ if is_declared(names, name) => is_met(alloc, names, declaration, name),
        _ => Ok(false),
    }
}

/// Whether a source is refused in which another declaration has a name. What an accepted source means says more than names do.
pub(crate) fn is_taken_in_refused(
    alloc: Global,
    source: &str,
    names: &Names<'_>,
    declaration: usize,
    name: &str,
) -> Result<bool, AllocError> {
    if is_taken(alloc, names, declaration, name)? {
        is_refused(alloc, source)
    } else {
        Ok(false)
    }
}
