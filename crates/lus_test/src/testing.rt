//! A table that is tried.

ghost use Rattle.std.specs.Prelude.{◌≡◌, ◌<◌, length, IfOk, map};
ghost use Rattle.std.specs.Arc.{arc_value};
ghost use Rattle.csv.specs.Records.{fields_of};
ghost use Rattle.lus_live_instance.specs.MachineSpecs.CodeSpecs.Codes.{program_of};
ghost use Rattle.lus_test.specs.Findings.{told_by};
ghost use Rattle.lus_test.specs.Tests.{HasTested, told_of};

use crate::error::TableError;
use crate::finding::{Finding, Outputs, find, places_of};
use crate::running::replies_to;
use crate::table::{read_head, read_steps};
use csv::ByteRecord;
use lus_live_instance::lus_machine::{NodeId, Program, Reply, Request};
use lus_records::all_columns;
use std::alloc::Global;
use std::sync::Arc;

/// What came of a table.
#[derive(Drop)]
pub struct Tested {
    /// Of each name of the head the place of the column among those of the outputs that it names; an input has none.
    pub places: Vec<Option<usize>>,
    /// The steps that the rows are.
    pub steps: Vec<Request>,
    /// The reply to each row.
    pub replies: Vec<Reply>,
    pub finding: Finding,
}

/// The outputs of a node.
pub(crate) fn outputs_of(alloc: Global, program: &Arc<Program>, node: NodeId) -> Outputs<'_>
    requires { node.0 < length (program_of (arc_value program.now)).nodes }
    ensures { told_by result ≡ told_of (program_of (arc_value program.now)) node.0 }
{
    Outputs {
        alloc,
        program: program.source(),
        names: program.names(),
        variables: program.outputs(node),
    }
}

/// Tries a node on a table of a head and rows: an instant each, with its inputs and with the outputs that are expected.
pub fn test(
    alloc: Global,
    program: &Arc<Program>,
    node: NodeId,
    first: &ByteRecord,
    rows: &[ByteRecord],
) -> Result<Tested, TableError>
    requires { node.0 < length (program_of (arc_value program.now)).nodes }
    ensures { IfOk result (λ t. HasTested (program_of (arc_value program.now)) node.0 (fields_of first.now) (map fields_of rows.now) t.replies.items t.finding) }
{
    let head = read_head(alloc, program, node, first)?;
    let steps = read_steps(alloc, program, node, &head, rows)?;
    let replies = replies_to(alloc, program, node, &steps)?;
    let columns = all_columns(alloc, program.source(), program.outputs(node))?;
    let places = places_of(alloc, &columns, first)?;
    let outputs = outputs_of(alloc, program, node);
    let finding = find(&outputs, &places, rows, &replies)?;
    Ok(Tested {
        places,
        steps,
        replies,
        finding,
    })
}
