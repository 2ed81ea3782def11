//! The passes over a tree.

use lus_cells::cells_of_nodes;
use lus_clocks::{check_clocks, check_nil};
use lus_order::order;
use lus_syntax::{Refusal, RefusalNumber, Tree};
use lus_types::check_types;
use std::alloc::{AllocError, Global};

/// Runs the passes over a tree, up to the first that refuses it.
pub(crate) fn check_tree(alloc: Global, tree: Tree) -> Result<(), Refusal> {
    let typed = check_types(alloc, tree)?;
    let clocked = check_clocks(typed)?;
    let initialised = check_nil(alloc, clocked)?;
    let ordered = order(alloc, initialised)?;
    cells_of_nodes(alloc, ordered.initialised().clocked().sound())?;
    Ok(())
}

/// What a pass gives or why it refuses, unless for want of memory.
pub(crate) fn in_memory<T: Drop>(
    checked: Result<T, Refusal>,
) -> Result<Result<T, Refusal>, AllocError> {
    match checked {
        Ok(given) => Ok(Ok(given)),
        Err(refusal) if refusal.number == RefusalNumber::Memory => Err(AllocError),
        Err(refusal) => Ok(Err(refusal)),
    }
}

/// How late the pass is that refuses with a number. Limits are of several passes.
fn pass_of(number: RefusalNumber) -> u32 {
    match number {
        RefusalNumber::Memory => 0,
        RefusalNumber::Lexical => 1,
        RefusalNumber::Unsupported => 1,
        RefusalNumber::Syntax => 2,
        RefusalNumber::Name => 3,
        RefusalNumber::Recursion => 4,
        RefusalNumber::Limit => 5,
        RefusalNumber::Type => 6,
        RefusalNumber::Clock => 7,
        RefusalNumber::Nil => 8,
        RefusalNumber::Cycle => 9,
    }
}

/// A refusal with a number at a line and a column, with no cycle.
pub(crate) fn refused_at(number: RefusalNumber, line: usize, column: usize) -> Refusal {
    if number == RefusalNumber::Memory {
        Refusal::memory()
    } else {
        Refusal::new(number, line, column)
    }
}

/// Whether a pass refuses with a number that reads tokens or grammar.
pub(crate) fn is_of_grammar(number: RefusalNumber) -> bool {
    pass_of(number) < 3
}

/// Whether what was refused is accepted now, or is refused by a later pass or further on in the text.
pub(crate) fn is_later(found: &Option<Refusal>, refusal: &Refusal) -> bool {
    let Some(found) = found else {
        return true;
    };
    let pass = pass_of(found.number);
    let before = pass_of(refusal.number);
    if pass != before {
        return pass > before;
    }
    found.line > refusal.line || (found.line == refusal.line && found.column > refusal.column)
}
