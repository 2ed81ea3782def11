//! What a table asks: steps with the inputs of its rows.

ghost use Rattle.std.specs.Prelude.{◌≡◌, ◌<◌, length, IfOk, Some, map, string_bytes, true};
ghost use Rattle.std.specs.Arc.{arc_value};
ghost use Rattle.csv.specs.Records.{fields_of};
ghost use Rattle.lus_live_instance.specs.MachineSpecs.CodeSpecs.Codes.{program_of};
ghost use Rattle.lus_records.specs.Heads.{head_of};
ghost use Rattle.lus_scripts.specs.Forms.{each};
ghost use Rattle.lus_test.specs.Tables.{IsHead, columns_of, has_all, step_under};

use crate::error::TableError;
use csv::ByteRecord;
use indexmap::IndexSet;
use lus_live_instance::lus_machine::{NodeId, Program, Request};
use lus_records::{all_columns, cells_of, head_of, head_reason, place_of, step_of, step_reason};
use lus_refusals::lus_culprits::{names_of, push_name, push_names};
use lus_values::Memory;
use std::alloc::Global;
use std::sync::Arc;

/// Whether all columns stand in a head.
fn has_all(head: &IndexSet<String>, columns: &[String]) -> bool
    ensures { result ≡ has_all (map string_bytes head.now.keys) (map string_bytes columns.now) }
{
    for column in columns {
        if place_of(head, column.as_str()).is_none() {
            return false;
        }
    }
    true
}

/// Which column isn't in a head.
fn missing_reason(
    alloc: Global,
    head: &IndexSet<String>,
    columns: &[String],
) -> Result<String, Memory> {
    let mut text = String::new(alloc);
    for column in columns {
        if place_of(head, column.as_str()).is_none() {
            text.push_str("input ")?;
            push_name(&mut text, column.as_str())?;
            text.push_str(" has no column")?;
            return Ok(text);
        }
    }
    Ok(text)
}

/// What is said of a table without a record.
fn empty_reason(alloc: Global, columns: &[String]) -> Result<String, Memory> {
    let mut text = String::from_str(
        alloc,
        "the table is empty, and its first line has names of columns",
    )?;
    if !columns.is_empty() {
        let names = names_of(alloc, columns)?;
        text.push_str(": ")?;
        push_names(&mut text, &names)?;
    }
    Ok(text)
}

/// The columns of a node's inputs, and behind them those of its outputs.
pub(crate) fn columns_of(
    alloc: Global,
    program: &Arc<Program>,
    node: NodeId,
) -> Result<Vec<String>, Memory>
    requires { node.0 < length (program_of (arc_value program.now)).nodes }
    ensures { IfOk result (λ v. map string_bytes v.items ≡ columns_of (program_of (arc_value program.now)) node.0) }
{
    let mut columns = all_columns(alloc, program.source(), program.inputs(node))?;
    let mut outputs = all_columns(alloc, program.source(), program.outputs(node))?;
    columns.append(&mut outputs)?;
    Ok(columns)
}

/// What is said of a table of a node without a record.
pub(crate) fn refuse_empty(alloc: Global, program: &Arc<Program>, node: NodeId) -> TableError
    requires { node.0 < length (program_of (arc_value program.now)).nodes }
{
    let Ok(columns) = columns_of(alloc, program, node) else {
        return TableError::Memory;
    };
    match empty_reason(alloc, &columns) {
        Ok(reason) => TableError::Wrong(0, reason),
        Err(Memory) => TableError::Memory,
    }
}

/// The head that names are, where they are known.
fn known_head(
    alloc: Global,
    columns: &[String],
    names: &[&[u8]],
) -> Result<IndexSet<String>, TableError>
    ensures { IfOk result (λ h. Some (map string_bytes h.keys) ≡ head_of (map string_bytes columns.now) (map (λ t. t.now) names.now)) }
{
    match head_of(alloc, columns, names)? {
        Some(head) => Ok(head),
        None => {
            let reason = head_reason(alloc, columns, names)?;
            Err(TableError::Wrong(0, reason))
        }
    }
}

/// A head that has all these columns, or why it doesn't.
fn complete_head(
    alloc: Global,
    head: IndexSet<String>,
    columns: &[String],
) -> Result<IndexSet<String>, TableError>
    ensures same { IfOk result (λ h. h ≡ head) }
    ensures all { IfOk result (λ h. has_all (map string_bytes h.keys) (map string_bytes columns.now) ≡ true) }
{
    if has_all(&head, columns) {
        return Ok(head);
    }
    let reason = missing_reason(alloc, &head, columns)?;
    Err(TableError::Wrong(0, reason))
}

/// The head of a table of a node: names of columns of its inputs and outputs, none twice, and each column of an input among them.
pub(crate) fn read_head(
    alloc: Global,
    program: &Arc<Program>,
    node: NodeId,
    first: &ByteRecord,
) -> Result<IndexSet<String>, TableError>
    requires { node.0 < length (program_of (arc_value program.now)).nodes }
    ensures head { IfOk result (λ h. IsHead (program_of (arc_value program.now)) node.0 (fields_of first.now)) }
    ensures same { IfOk result (λ h. map string_bytes h.keys ≡ fields_of first.now) }
{
    let columns = columns_of(alloc, program, node)?;
    let inputs = all_columns(alloc, program.source(), program.inputs(node))?;
    let names = cells_of(alloc, first)?;
    let head = known_head(alloc, &columns, &names)?;
    complete_head(alloc, head, &inputs)
}

/// The step that a row is under a head.
fn read_step(
    alloc: Global,
    program: &Arc<Program>,
    node: NodeId,
    head: &IndexSet<String>,
    row: &ByteRecord,
) -> Result<Option<Request>, Memory>
    requires { node.0 < length (program_of (arc_value program.now)).nodes }
    ensures { IfOk result (λ o. o
        ≡ step_under (program_of (arc_value program.now)) node.0 (map string_bytes head.now.keys) (fields_of row.now)) }
{
    let cells = cells_of(alloc, row)?;
    step_of(
        alloc,
        program.source(),
        program.names(),
        program.inputs(node),
        head,
        &cells,
    )
}

/// Why a row is no step.
fn refuse_row(
    alloc: Global,
    program: &Arc<Program>,
    node: NodeId,
    head: &IndexSet<String>,
    row: &ByteRecord,
) -> Result<String, Memory>
    requires { node.0 < length (program_of (arc_value program.now)).nodes }
{
    let cells = cells_of(alloc, row)?;
    step_reason(
        alloc,
        program.source(),
        program.names(),
        program.inputs(node),
        head,
        &cells,
    )
}

/// The steps that the rows of a table are under its head.
pub(crate) fn read_steps(
    alloc: Global,
    program: &Arc<Program>,
    node: NodeId,
    head: &IndexSet<String>,
    rows: &[ByteRecord],
) -> Result<Vec<Request>, TableError>
    requires { node.0 < length (program_of (arc_value program.now)).nodes }
    ensures { IfOk result (λ v. Some v.items
        ≡ each (step_under (program_of (arc_value program.now)) node.0 (map string_bytes head.now.keys)) (map fields_of rows.now)) }
{
    let mut steps = Vec::new(alloc);
    for (place, row) in rows.iter().enumerate() {
        let Some(step) = read_step(alloc, program, node, head, row)? else {
            let reason = refuse_row(alloc, program, node, head, row)?;
            return Err(TableError::Wrong(place.saturating_add(1), reason));
        };
        steps.push(step)?;
    }
    Ok(steps)
}
