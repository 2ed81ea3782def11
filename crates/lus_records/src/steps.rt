//! Lines as steps of a node.

ghost use Rattle.std.specs.Prelude.{◌≡◌, IfOk, map, option_map, string_bytes};
ghost use Rattle.lus_program.specs.View.{program_seen, variable_of};
ghost use Rattle.lus_requests.specs.declared.request.Request.TheVariants.{Step};
ghost use Rattle.lus_records.specs.Records.{row_of, step_in};

use crate::cells::{cells_of, record_of};
use crate::columns::field_column;
use crate::inputs::{Cells, column_names, read_item, read_row, wrong_field};
use indexmap::IndexSet;
use lus_devices::{Sink, write_all};
use lus_program::{Program, Variable};
use lus_refusals::lus_culprits::{push_cell, push_count, push_name, sentence};
use lus_requests::Request;
use lus_syntax::MOST_NESTING;
use lus_values::{Memory, Names};
use std::alloc::Global;

/// The step that cells are under a head.
pub fn step_of(
    alloc: Global,
    program: &Program,
    names: &Names,
    inputs: &[Variable],
    head: &IndexSet<String>,
    cells: &[&[u8]],
) -> Result<Option<Request>, Memory>
    ensures { IfOk result (λ o. o ≡ option_map Step
        (row_of (program_seen program.now) names.now (map variable_of inputs.now) (map string_bytes head.now.keys)
        (map (λ t. t.now) cells.now))) }
{
    let cells = Cells { head, cells };
    match read_row(alloc, program, names, &cells, inputs)? {
        Some(row) => Ok(Some(Request::Step(row))),
        None => Ok(None),
    }
}

/// The step that a line is under a head.
pub(crate) fn step_in(
    alloc: Global,
    program: &Program,
    names: &Names,
    inputs: &[Variable],
    head: &IndexSet<String>,
    line: &[u8],
) -> Result<Option<Request>, Memory>
    ensures { IfOk result (λ o. o
        ≡ step_in (program_seen program.now) names.now (map variable_of inputs.now) (map string_bytes head.now.keys) line.now) }
{
    let Some(record) = record_of(alloc, line)? else {
        return Ok(None);
    };
    let cells = cells_of(alloc, &record)?;
    step_of(alloc, program, names, inputs, head, &cells)
}

/// Appends where the cells of an input, which are no value, are none: at the column of a field, or at its own.
fn push_input(
    text: &mut String,
    alloc: Global,
    program: &Program,
    names: &Names,
    cells: &Cells<'_>,
    input: &Variable,
) -> Result<(), Memory> {
    let mut column = String::from_str(alloc, input.name.as_str())?;
    let mut kind = input.kind;
    for _level in 0..MOST_NESTING {
        let found = wrong_field(alloc, program, names, cells, kind, &column)?;
        let Some(field) = found else {
            break;
        };
        column = field_column(alloc, &column, field.name.as_str())?;
        kind = field.kind;
    }
    let cell = cells.cell(&column);
    if let [.., b'\n'] = cell {
        text.push_str("the cell of ")?;
        push_name(text, &column)?;
        text.push_str(" has a quote that isn't closed")?;
        return Ok(());
    }
    push_cell(text, alloc, program, &column, kind, cell)
}

/// Appends why cells are no step.
fn push_cells(
    text: &mut String,
    alloc: Global,
    program: &Program,
    names: &Names,
    inputs: &[Variable],
    cells: &Cells<'_>,
) -> Result<(), Memory> {
    if cells.cells.len() != cells.head.len() {
        let columns = column_names(alloc, cells.head)?;
        return push_count(text, cells.cells.len(), "cell", "column", &columns);
    }
    for input in inputs {
        let item = read_item(alloc, program, names, cells, input)?;
        if item.is_none() {
            return push_input(text, alloc, program, names, cells, input);
        }
    }
    Ok(())
}

/// Why cells are no step under a head.
pub fn step_reason(
    alloc: Global,
    program: &Program,
    names: &Names,
    inputs: &[Variable],
    head: &IndexSet<String>,
    cells: &[&[u8]],
) -> Result<String, Memory> {
    let cells = Cells { head, cells };
    let mut text = String::new(alloc);
    push_cells(&mut text, alloc, program, names, inputs, &cells)?;
    sentence(alloc, &text, "its cells are no values of the inputs")
}

/// Why a line is no step.
fn reason(
    alloc: Global,
    program: &Program,
    names: &Names,
    inputs: &[Variable],
    head: &IndexSet<String>,
    line: &[u8],
) -> Result<String, Memory> {
    let Some(record) = record_of(alloc, line)? else {
        return Ok(String::from_str(alloc, "it is more than one record")?);
    };
    let cells = cells_of(alloc, &record)?;
    step_reason(alloc, program, names, inputs, head, &cells)
}

/// Writes why a line is no step. What can't be written changes nothing.
pub(crate) fn explain<F: Sink>(
    alloc: Global,
    program: &Program,
    names: &Names,
    inputs: &[Variable],
    head: &IndexSet<String>,
    line: &[u8],
    faults: &mut F,
) {
    match reason(alloc, program, names, inputs, head, line) {
        Ok(text) => {
            let _ = write_all(faults, text.as_bytes());
        }
        Err(Memory) => {
            let _ = write_all(faults, b"out of memory");
        }
    }
}
