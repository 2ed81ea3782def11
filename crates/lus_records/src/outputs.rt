//! Outputs as records.

ghost use Rattle.std.specs.Prelude.{◌≡◌, ◌++◌, [], IfOk, OnErr, OnOk, map, option_map, string_bytes};
ghost use Rattle.csv.specs.Writing.{default_writer, row_text};
ghost use Rattle.lus_devices.specs.Devices.{WritesBeginning, with_text};
ghost use Rattle.lus_values.specs.View.{value_of};
ghost use Rattle.lus_program.specs.View.{program_seen, variable_of};
ghost use Rattle.lus_records.specs.Outputs.{blank_cells, item_at, item_cells, outputs_head, record_text};
ghost use Rattle.lus_records.specs.Outputs.{reply_record, row_cells, value_cells};

use crate::columns::{all_columns, columns_of};
use csv::{Error, WriterBuilder};
use lus_devices::{Sink, write_all};
use lus_play::PlayError;
use lus_program::{Program, Variable};
use lus_requests::Reply;
use lus_values::{Memory, Names, Row, Value, print};
use std::alloc::Global;
use std::str::from_utf8;

/// Appends the cells of a value: of a structure those of its fields.
fn push_value(
    alloc: Global,
    cells: &mut Vec<String>,
    names: &Names,
    value: &Value,
) -> Result<(), Memory>
    ensures { OnOk result (map string_bytes cells.new.items
        ≡ map string_bytes cells.old.items ++ value_cells names.now (value_of value.now)) }
{
    match value {
        Value::Bool(_) | Value::Int(_) | Value::Enum(_, _) | Value::Nil => {
            cells.push(print(alloc, value, names)?)?;
        }
        Value::Struct(fields) => {
            for field in fields {
                push_value(alloc, cells, names, field)?;
            }
        }
    }
    Ok(())
}

/// Appends an empty cell for each column.
fn push_empty(alloc: Global, cells: &mut Vec<String>, columns: &[String]) -> Result<(), Memory>
    ensures { OnOk result (map string_bytes cells.new.items
        ≡ map string_bytes cells.old.items ++ map (λ c. []) (map string_bytes columns.now)) }
{
    for _ in columns {
        cells.push(String::new(alloc))?;
    }
    Ok(())
}

/// Appends the cells of an output that is absent.
fn push_blanks(
    alloc: Global,
    cells: &mut Vec<String>,
    program: &Program,
    output: &Variable,
) -> Result<(), Memory>
    ensures { OnOk result (map string_bytes cells.new.items
        ≡ map string_bytes cells.old.items ++ blank_cells (program_seen program.now) (variable_of output.now)) }
{
    let columns = columns_of(alloc, program, output)?;
    push_empty(alloc, cells, &columns)
}

/// Appends the cells of an output, empty ones where it is absent.
fn push_item(
    alloc: Global,
    cells: &mut Vec<String>,
    program: &Program,
    names: &Names,
    output: &Variable,
    item: Option<&Value>,
) -> Result<(), Memory>
    ensures { OnOk result (map string_bytes cells.new.items ≡ map string_bytes cells.old.items
        ++ item_cells (program_seen program.now) names.now (variable_of output.now) (option_map (λ v. value_of v.now) item.entry)) }
{
    match item {
        Some(value) => push_value(alloc, cells, names, value),
        None => push_blanks(alloc, cells, program, output),
    }
}

/// The item at a place; behind the end of a row all is absent.
fn item_at(row: &Row, place: usize) -> Option<&Value>
    ensures { option_map (λ v. value_of v.now) result ≡ item_at row.now place }
{
    match row.items().get(place) {
        Some(Some(value)) => Some(value),
        _ => None,
    }
}

/// The cells of outputs.
pub fn row_cells(
    alloc: Global,
    program: &Program,
    names: &Names,
    outputs: &[Variable],
    row: &Row,
) -> Result<Vec<String>, Memory>
    ensures { IfOk result (λ v. map string_bytes v.items
        ≡ row_cells (program_seen program.now) names.now (map variable_of outputs.now) row.now) }
{
    let mut cells = Vec::new(alloc);
    for (place, output) in outputs.iter().enumerate() {
        let item = item_at(row, place);
        push_item(alloc, &mut cells, program, names, output, item)?;
    }
    Ok(cells)
}

/// The bytes of a record, and its line feed. The one error that comes is out of memory.
pub fn record_bytes(alloc: Global, fields: &[&[u8]]) -> Result<Vec<u8>, Error>
    ensures { IfOk result (λ v. v.items ≡ row_text default_writer (map (λ f. f.now) fields.now)) }
{
    let mut wtr = WriterBuilder::new().from_writer(Vec::new(alloc));
    wtr.write_fields(fields)?;
    match wtr.into_inner() {
        Ok(text) => Ok(text),
        Err(error) => Err(error.into_error()),
    }
}

/// The bytes of cells.
pub fn bytes_of(alloc: Global, cells: &[String]) -> Result<Vec<&[u8]>, Memory>
    ensures { IfOk result (λ v. map (λ t. t.now) v.items ≡ map string_bytes cells.now) }
{
    let mut fields = Vec::new(alloc);
    for cell in cells {
        fields.push(cell.as_bytes())?;
    }
    Ok(fields)
}

/// Appends the record of these cells. Its bytes are a text, since the cells are.
fn push_record(alloc: Global, text: &mut String, cells: &[String]) -> Result<(), Memory>
    ensures { OnOk result (string_bytes text.new ≡ string_bytes text.old ++ record_text (map string_bytes cells.now)) }
{
    let fields = bytes_of(alloc, cells)?;
    let Ok(bytes) = record_bytes(alloc, &fields) else {
        return Err(Memory);
    };
    let Ok(record) = from_utf8(&bytes) else {
        return Err(Memory);
    };
    text.push_str(record)?;
    Ok(())
}

/// The record of the names of outputs' columns.
fn head_record(alloc: Global, program: &Program, outputs: &[Variable]) -> Result<String, Memory>
    ensures { IfOk result (λ head. string_bytes head ≡ outputs_head (program_seen program.now) (map variable_of outputs.now)) }
{
    let columns = all_columns(alloc, program, outputs)?;
    let mut head = String::new(alloc);
    push_record(alloc, &mut head, &columns)?;
    Ok(head)
}

/// Writes the record of the names of outputs' columns, all of it or a beginning.
pub fn write_head<O: Sink>(
    alloc: Global,
    program: &Program,
    outputs: &[Variable],
    output: &mut O,
) -> Result<(), PlayError>
    ensures whole { OnOk result (O.written output.new
        ≡ with_text (O.written output.old) (outputs_head (program_seen program.now) (map variable_of outputs.now))) }
    ensures beginning { OnErr result (WritesBeginning (O.written output.old) (O.written output.new)
        (outputs_head (program_seen program.now) (map variable_of outputs.now))) }
{
    let head = head_record(alloc, program, outputs)?;
    match write_all(output, head.as_bytes()) {
        Ok(()) => Ok(()),
        Err(_) => Err(PlayError::Write),
    }
}

/// Appends the record of a reply: empty cells where it isn't that of a step that is accepted.
pub(crate) fn push_reply(
    alloc: Global,
    text: &mut String,
    program: &Program,
    names: &Names,
    outputs: &[Variable],
    reply: &Reply,
) -> Result<(), Memory>
    ensures { OnOk result (string_bytes text.new
        ≡ string_bytes text.old ++ reply_record (program_seen program.now) names.now (map variable_of outputs.now) reply.now) }
{
    let cells = match reply {
        Reply::Outputs(row) => row_cells(alloc, program, names, outputs, row)?,
        _ => row_cells(alloc, program, names, outputs, &Row::new(Vec::new(alloc)))?,
    };
    push_record(alloc, text, &cells)
}
