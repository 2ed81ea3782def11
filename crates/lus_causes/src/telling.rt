//! The finding of a refusal's case.

use lus_clock_causes::clock_cause;
use lus_faults::Finding;
use lus_limit_causes::{depth_cause, limit_cause};
use lus_misreadings::{keeps_operators, misread};
use lus_name_causes::name_cause;
use lus_nil_causes::nil_cause;
use lus_round_causes::{cycle_cause, recursion_cause};
use lus_syntax::{Refusal, RefusalNumber, Tree};
use lus_type_causes::type_cause;
use std::alloc::{AllocError, Global};

/// What is said of the case of a refusal that a source's tree shows.
fn of_tree(
    alloc: Global,
    source: &str,
    tree: Tree,
    refusal: &Refusal,
) -> Result<Option<Finding>, AllocError> {
    match refusal.number {
        RefusalNumber::Name => name_cause(alloc, source, &tree, refusal),
        RefusalNumber::Type => type_cause(alloc, source, tree),
        RefusalNumber::Clock => clock_cause(alloc, source, &tree, refusal),
        RefusalNumber::Nil => nil_cause(alloc, source, &tree, refusal),
        RefusalNumber::Cycle => cycle_cause(alloc, source, &tree, refusal),
        RefusalNumber::Recursion => recursion_cause(alloc, &tree, refusal),
        RefusalNumber::Limit => limit_cause(alloc, &tree, refusal),
        _ => Ok(None),
    }
}

/// What is said of a limit that is passed by a number, or by the depth of an expression.
fn of_spelled_limit(
    alloc: Global,
    source: &str,
    refusal: &Refusal,
) -> Result<Option<Finding>, AllocError> {
    let found = misread(alloc, source, refusal)?;
    if found.is_some() {
        return Ok(found);
    }
    depth_cause(alloc, source)
}

/// What is said of a refusal of a source that the declaration at its place shows, with the one before it: of tokens, of grammar, of a
/// number or a depth that is past its limit. Nothing of others.
pub fn spelling_finding(
    alloc: Global,
    source: &str,
    refusal: &Refusal,
) -> Result<Option<Finding>, AllocError> {
    match refusal.number {
        RefusalNumber::Lexical | RefusalNumber::Unsupported | RefusalNumber::Syntax => misread(
            alloc, source, refusal,
        ),
        RefusalNumber::Limit => of_spelled_limit(alloc, source, refusal),
        _ => Ok(None),
    }
}

/// The operators that a change may leave out that is told of a refusal with a number: the point between a type and its constructor, the
/// equals sign behind the name of an argument or of a second equation, the implication, numbers for truth values, the clock of a
/// declaration, and an `if` that a `merge` stands for.
fn may_drop(number: RefusalNumber) -> &'static [&'static str] {
    match number {
        RefusalNumber::Name => &[".", "="],
        RefusalNumber::Type => &["=>", "if", "then", "else", "1", "0"],
        RefusalNumber::Clock => &["when", "not", "if", "then", "else"],
        _ => &[],
    }
}

/// The operators that it may put in: those of what other languages have built in, of fields, of branches, of clocks, of first values, and
/// of memories.
fn may_add(number: RefusalNumber) -> &'static [&'static str] {
    match number {
        RefusalNumber::Name => &[
            "if", "<", "then", "-", "else", "when", "not", "and", "->", "pre", "=",
        ],
        RefusalNumber::Type => &["->", ">=", ".", "<>", "=", "if", "then", "else"],
        RefusalNumber::Nil => &["->"],
        RefusalNumber::Clock => &["when", "not", "merge", "->"],
        RefusalNumber::Cycle => &["pre", "->"],
        _ => &[],
    }
}

/// A finding, without its change of the source where that leaves out or puts in what it isn't about.
fn gated(
    alloc: Global,
    source: &str,
    number: RefusalNumber,
    finding: Finding,
) -> Result<Finding, AllocError> {
    let is_kept = match &finding.edit {
        Some(edit) => keeps_operators(alloc, source, edit, may_drop(number), may_add(number))?,
        None => true,
    };
    if is_kept {
        Ok(finding)
    } else {
        Ok(finding.with_edit(None))
    }
}

/// What is said of the case of a refusal of a source that a tree shows whose places are the source's, where its change of the source leaves
/// out and puts in only what it is about; nothing where no more is known than its number and its place.
pub fn finding_of(
    alloc: Global,
    source: &str,
    tree: Tree,
    refusal: &Refusal,
) -> Result<Option<Finding>, AllocError> {
    match of_tree(alloc, source, tree, refusal)? {
        Some(finding) => Ok(Some(gated(alloc, source, refusal.number, finding)?)),
        None => Ok(None),
    }
}
