//! The cells that an entry itself gives.

ghost use Rattle.std.specs.Prelude.{◌≡◌, ◌++◌, IfOk, OnOk, map};
ghost use Rattle.lus_values.specs.View.{entry_of};
ghost use Rattle.lus_diagrams.specs.Columns.{given_rows, paired};

use lus_requests::{Reply, Request};
use lus_values::{Memory, Row, Value, copy_entry};
use std::alloc::Global;
use std::slice;

fn push_copies(alloc: Global, entries: &mut Vec<Option<Value>>, row: &Row) -> Result<(), Memory>
    ensures { OnOk result (map entry_of entries.new.items ≡ map entry_of entries.old.items ++ row.now) }
{
    for entry in row.items() {
        entries.push(copy_entry(alloc, entry)?)?;
    }
    Ok(())
}

/// The entries of an instant's inputs, and behind them those of its outputs.
fn joined(alloc: Global, inputs: &Row, outputs: &Row) -> Result<Row, Memory>
    ensures { IfOk result (λ row. row ≡ inputs.now ++ outputs.now) }
{
    let mut entries = Vec::new(alloc);
    push_copies(alloc, &mut entries, inputs)?;
    push_copies(alloc, &mut entries, outputs)?;
    Ok(Row::new(entries))
}

fn paired(alloc: Global, inputs: &[Row], outputs: &[Row]) -> Result<Vec<Row>, Memory>
    ensures { IfOk result (λ v. v.items ≡ paired inputs.now outputs.now) }
{
    let mut rows = Vec::new(alloc);
    for (input, output) in inputs.iter().zip(outputs) {
        rows.push(joined(alloc, input, output)?)?;
    }
    Ok(rows)
}

/// The inputs and outputs of each instant that an entry accepted, as cells.
pub fn given_rows(alloc: Global, request: &Request, reply: &Reply) -> Result<Vec<Row>, Memory>
    ensures { IfOk result (λ v. v.items ≡ given_rows request.now reply.now) }
{
    match (request, reply) {
        (Request::Step(inputs), Reply::Outputs(outputs)) => {
            paired(alloc, slice::from_ref(inputs), slice::from_ref(outputs))
        }
        (Request::Burst(inputs), Reply::Rows(outputs)) => {
            paired(alloc, inputs.items(), outputs.items())
        }
        _ => Ok(Vec::new(alloc)),
    }
}
