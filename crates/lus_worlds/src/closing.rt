//! What was found for a node, as an instant of it.

ghost use Rattle.std.specs.Prelude.{◌≡◌, IfOk, map};
ghost use Rattle.lus_program.specs.Programs.{node_at};
ghost use Rattle.lus_program.specs.View.{node_of, program_seen};
ghost use Rattle.lus_values.specs.View.{entry_of};
ghost use Rattle.lus_streams.specs.Equations.{node_parts};
ghost use Rattle.lus_streams.specs.Streams.{instant};
ghost use Rattle.lus_parts.specs.Parts.{part_of};
ghost use Rattle.lus_worlds.specs.Moments.{IsNextAmong, called_of, instant_of};

use crate::judging::judge;
use crate::moment::{Moment, rows_of};
use lus_parts::Part;
use lus_program::{Node, Program};
use lus_reference::renew;
use lus_values::{Memory, Row, Value};
use std::alloc::Global;

/// The instant of a node with these entries and these instants of the nodes that it calls, with what is kept behind it and the part
/// that is at fault, if one is. These are the parts of the node.
pub fn close(
    alloc: Global,
    program: &Program,
    number: u32,
    node: &Node,
    parts: &[Part<'_>],
    present: bool,
    row: Vec<Option<Value>>,
    called: Vec<Moment>,
    old: &Moment,
) -> Result<Moment, Memory>
    requires node { node_of node.now ≡ node_at (program_seen program.now) number }
    requires parts { map part_of parts.now ≡ node_parts (program_seen program.now) (node_of node.now) }
    ensures made { IfOk result (λ m. instant_of m ≡ instant present (map entry_of row.items) (called_of called.items)) }
    ensures next { IfOk result (IsNextAmong (program_seen program.now) number called.items old.now) }
{
    let entries: &[Option<Value>] = &row;
    let moments: &[Moment] = &called;
    let rows = rows_of(alloc, moments)?;
    let kept = old.kept.items();
    let next = renew(alloc, program, present, entries, &rows, parts, kept)?;
    let fault = judge(
        alloc, program, present, entries, &rows, parts, kept, moments, next.fault,
    )?;
    Ok(Moment {
        present,
        row: Row::new(row),
        kept: Row::new(next.kept),
        fault,
        called,
    })
}
