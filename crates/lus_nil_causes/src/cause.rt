//! What is said of a value that may be nil.

use crate::flags::flags_of;
use crate::wanting::{Wanting, wanting_at};
use crate::way::{Given, add_way};
use lus_faults::{Finding, Sought, extent_of};
use lus_syntax::{Refusal, Tree};
use std::alloc::{AllocError, Global};

/// What is said of a value that may be nil, by what wants one.
fn told<'t>(given: Given<'_, 't>, wanting: Wanting<'t>) -> Result<Finding, AllocError> {
    let (front, word, behind) = wanting.sentence;
    let sentence = format!(in given.alloc; "{front}{word}{behind}")?;
    let length = match wanting.marked {
        Some(name) => name.span.length,
        None => extent_of(given.source, wanting.expr).length,
    };
    let mut finding = Finding::new(given.alloc, sentence, length);
    add_way(given, wanting.expr, &mut finding)?;
    Ok(finding)
}

/// What is said of a value that may be nil, by what wants one at the place: the way to the `pre` that has none, and how that would
/// be written with a first value.
pub fn nil_cause(
    alloc: Global,
    source: &str,
    tree: &Tree,
    refusal: &Refusal,
) -> Result<Option<Finding>, AllocError> {
    let sought = Sought::of(refusal);
    let Some(node) = sought.node(tree) else {
        return Ok(None);
    };
    let flags = flags_of(alloc, node)?;
    let Some(wanting) = wanting_at(alloc, &flags, sought)? else {
        return Ok(None);
    };
    let given = Given {
        alloc,
        source,
        tree,
        flags: &flags,
    };
    Ok(Some(told(given, wanting)?))
}
