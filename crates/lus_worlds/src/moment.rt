//! Instants of nodes, as they are kept.

ghost use Rattle.std.specs.Prelude.{◌≡◌, IfOk, map};
ghost use Rattle.lus_worlds.specs.Moments.{row_in};

use lus_reference::Operation;
use lus_syntax::Place;
use lus_values::{Memory, Row};
use std::alloc::Global;

/// A part at fault: the calls that lead to its node, each by its number in the text of the node before, and the place of the part's
/// first token in the source. A cause is the part's operation, which has no value on these values of its operands; without one the
/// part is at fault by another.
#[derive(Drop)]
pub struct Fault {
    pub way: Vec<u32>,
    pub place: Place,
    pub cause: Option<Operation>,
}

/// An instant of a node and of the nodes that it calls, and what is kept of them behind it.
#[derive(Drop)]
pub struct Moment {
    /// Whether the node's base clock is present.
    pub present: bool,
    /// The entries of the node's variables.
    pub row: Row,
    /// What is kept of each part of the node's text.
    pub kept: Row,
    /// A part at fault, in the node or in one that it calls, if there is one.
    pub fault: Option<Fault>,
    /// The same instant of each node that it calls, by the calls' numbers.
    pub called: Vec<Moment>,
}

/// The rows of instants.
pub fn rows_of(alloc: Global, moments: &[Moment]) -> Result<Vec<Row>, Memory>
    ensures { IfOk result (λ rows. rows.items ≡ map row_in moments.now) }
{
    let mut rows = Vec::new(alloc);
    for moment in moments {
        let row = moment.row.copy(alloc)?;
        rows.push(row)?;
    }
    Ok(rows)
}
