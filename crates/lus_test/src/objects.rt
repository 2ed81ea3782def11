//! Tables whose rows are objects of JSON, one on each line, with inputs and expected outputs by the names of their columns.

ghost use Rattle.std.specs.Prelude.{◌≡◌, ◌<◌, length};
ghost use Rattle.std.specs.Arc.{arc_value};
ghost use Rattle.lus_live_instance.specs.MachineSpecs.CodeSpecs.Codes.{program_of};
ghost use Rattle.lus_test.specs.Ends.{has_objects};

use crate::filling::push_record;
use crate::finding::{Outputs, cell_at};
use crate::problem::Problem;
use crate::reading::read_records;
use crate::table::columns_of;
use csv::ByteRecord;
use lus_live_instance::lus_machine::{NodeId, Program, Reply};
use lus_records::{all_columns, bytes_of, cells_of, head_reason};
use lus_refusals::lus_culprits::push_name;
use lus_values::Memory;
use serde_json::{Map, Value};
use std::alloc::Global;
use std::sync::Arc;

/// Whether the rows of a file of this name are objects.
pub(crate) fn has_objects(file: &str) -> bool
    ensures { result ≡ has_objects file.now }
{
    file.as_bytes().ends_with(b".jsonl")
}

/// The columns of a node: those of its inputs, of which there are so many, and behind them those of its outputs.
#[derive(Drop)]
struct Columns {
    names: Vec<String>,
    inputs: usize,
}

/// A value that is no object, behind the names that lead to it, with dots between them.
#[derive(Drop)]
struct Leaf<'v> {
    path: String,
    value: &'v Value,
}

fn node_columns(alloc: Global, program: &Arc<Program>, node: NodeId) -> Result<Columns, Memory>
    requires { node.0 < length (program_of (arc_value program.now)).nodes }
{
    let inputs = all_columns(alloc, program.source(), program.inputs(node))?.len();
    let names = columns_of(alloc, program, node)?;
    Ok(Columns { names, inputs })
}

/// Pushes the members of an object that stands behind a path.
fn push_members<'v>(
    alloc: Global,
    leaves: &mut Vec<Leaf<'v>>,
    before: &str,
    members: &'v Map<String, Value>,
) -> Result<(), Memory> {
    for key in members.keys() {
        let Some(value) = members.get(key.as_str()) else {
            continue;
        };
        let mut path = String::from_str(alloc, before)?;
        if !before.is_empty() {
            path.push_str(".")?;
        }
        path.push_str(key.as_str())?;
        leaves.push(Leaf { path, value })?;
    }
    Ok(())
}

/// The values in an object that are none, which are no more than this.
fn leaves_of<'v>(
    alloc: Global,
    members: &'v Map<String, Value>,
    most: usize,
) -> Result<Vec<Leaf<'v>>, Memory> {
    let mut leaves = Vec::new(alloc);
    let mut left = Vec::new(alloc);
    push_members(alloc, &mut left, "", members)?;
    for _leaf in 0..most {
        let Some(leaf) = left.pop() else {
            break;
        };
        match leaf.value {
            Value::Object(members) => push_members(alloc, &mut left, &leaf.path, members)?,
            _ => leaves.push(leaf)?,
        }
    }
    Ok(leaves)
}

/// Whether a text can be the name of a constructor, and is no other word of values.
fn is_constructor(text: &str) -> bool {
    let is_word = text != "true" && text != "false";
    is_word && matches!(text.as_bytes(), [first, ..] if first.is_ascii_alphabetic())
}

/// The cell that a value is under a column; no list and no other text is one.
fn cell_of(alloc: Global, is_input: bool, value: &Value) -> Result<Option<String>, Memory> {
    let word = match value {
        Value::Null if is_input => "",
        Value::Null => "-",
        Value::Bool(true) => "true",
        Value::Bool(false) => "false",
        Value::Number(_) => return Ok(Some(value.to_string(alloc)?)),
        Value::String(text) if is_constructor(text.as_str()) => text.as_str(),
        Value::String(_) | Value::Array(_) | Value::Object(_) => return Ok(None),
    };
    Ok(Some(String::from_str(alloc, word)?))
}

/// That a value stands for no cell.
fn no_cell(alloc: Global, name: &str) -> Result<String, Memory> {
    let mut text = String::from_str(alloc, "the value of ")?;
    push_name(&mut text, name)?;
    text.push_str(" is no whole number, true, false, null or the name of a constructor")?;
    Ok(text)
}

/// Puts the cell of a leaf of a line in its place.
fn put(
    alloc: Global,
    columns: &Columns,
    cells: &mut Vec<String>,
    line: u64,
    leaf: &Leaf<'_>,
) -> Result<(), Problem> {
    let name = leaf.path.as_str();
    let Some(place) = columns
        .names
        .iter()
        .position(|column| column.as_str() == name)
    else {
        let reason = head_reason(alloc, &columns.names, &[name.as_bytes()])?;
        return Err(Problem::Line(line, reason));
    };
    match cell_of(alloc, place < columns.inputs, leaf.value)? {
        Some(cell) => {
            if let Some(own) = cells.get_mut(place) {
                *own = cell;
            }
            Ok(())
        }
        None => Err(Problem::Line(line, no_cell(alloc, name)?)),
    }
}

/// The cells of the row that a line is.
fn cells_in(
    alloc: Global,
    columns: &Columns,
    number: u64,
    line: &[u8],
) -> Result<Vec<String>, Problem> {
    let value = match Value::from_slice(alloc, line) {
        Ok(value) => value,
        Err(error) if error.is_memory() => return Err(Problem::from(Memory)),
        Err(error) => {
            let column = error.column();
            let reason = format!(in alloc;
                "it is no JSON, at column {column}; a row is an object on one line"
            )?;
            return Err(Problem::Line(number, reason));
        }
    };
    let Value::Object(members) = &value else {
        let text = "a row is an object of JSON on one line, with inputs and outputs by their names";
        return Err(Problem::Line(number, String::from_str(alloc, text)?));
    };
    let mut cells = Vec::new(alloc);
    for _column in &columns.names {
        cells.push(String::new(alloc))?;
    }
    for leaf in &leaves_of(alloc, members, line.len())? {
        put(alloc, columns, &mut cells, number, leaf)?;
    }
    Ok(cells)
}

/// The records of a text whose lines are objects: names of all columns of a node, and a row for each line that isn't blank.
pub(crate) fn read_objects(
    alloc: Global,
    program: &Arc<Program>,
    node: NodeId,
    text: &[u8],
) -> Result<Vec<ByteRecord>, Problem>
    requires { node.0 < length (program_of (arc_value program.now)).nodes }
{
    let columns = node_columns(alloc, program, node)?;
    // the rows as comma-separated values, each on the line on which its object stands
    let mut rows = Vec::new(alloc);
    let mut number = 0u64;
    for line in text.split(|byte| *byte == b'\n') {
        number = number.saturating_add(1);
        if line.trim_ascii().is_empty() {
            rows.push(b'\n')?;
        } else {
            let cells = cells_in(alloc, &columns, number, line)?;
            push_record(alloc, &mut rows, &bytes_of(alloc, &cells)?)?;
        }
    }
    let mut head = Vec::new(alloc);
    push_record(alloc, &mut head, &bytes_of(alloc, &columns.names)?)?;
    let mut records = read_records(alloc, &head)?;
    records.append(&mut read_records(alloc, &rows)?)?;
    Ok(records)
}

/// Whether a word of journals is written so in JSON.
fn is_bare(word: &[u8]) -> bool {
    match word {
        b"true" | b"false" => true,
        [first, ..] => *first == b'-' || first.is_ascii_digit(),
        [] => false,
    }
}

/// Appends texts.
fn push_all(text: &mut Vec<u8>, pieces: &[&[u8]]) -> Result<(), Memory> {
    for piece in pieces {
        text.extend_from_slice(*piece)?;
    }
    Ok(())
}

/// Appends a member of an object, whose value is this word of journals.
fn push_member(text: &mut Vec<u8>, is_later: bool, name: &[u8], word: &[u8]) -> Result<(), Memory> {
    let before: &[u8] = if is_later { b",\"" } else { b"\"" };
    push_all(text, &[before, name, b"\":"])?;
    match word {
        b"-" => push_all(text, &[b"null"]),
        _ if is_bare(word) => push_all(text, &[word]),
        _ => push_all(text, &[b"\"", word, b"\""]),
    }
}

/// Appends the object of a row: the inputs that it has, and the outputs that come.
fn push_object(
    text: &mut Vec<u8>,
    places: &[Option<usize>],
    names: &[&[u8]],
    cells: &[&[u8]],
    told: &[&[u8]],
) -> Result<(), Memory> {
    push_all(text, &[b"{"])?;
    let mut is_later = false;
    for (at, place) in places.iter().enumerate() {
        let word = match place {
            Some(place) => cell_at(told, *place),
            None => cell_at(cells, at),
        };
        if !word.is_empty() {
            push_member(text, is_later, cell_at(names, at), word)?;
            is_later = true;
        }
    }
    push_all(text, &[b"}\n"])
}

/// The table of these rows as objects, with the outputs that come: of a refused row none.
pub(crate) fn filled_objects(
    outputs: &Outputs<'_>,
    places: &[Option<usize>],
    head: &ByteRecord,
    rows: &[ByteRecord],
    replies: &[Reply],
) -> Result<Vec<u8>, Memory> {
    let alloc = outputs.alloc;
    let names = cells_of(alloc, head)?;
    let mut text = Vec::new(alloc);
    for (row, reply) in rows.iter().zip(replies) {
        let words = match outputs.told(reply)? {
            Some(words) => words,
            None => Vec::new(alloc),
        };
        let cells = cells_of(alloc, row)?;
        push_object(&mut text, places, &names, &cells, &bytes_of(alloc, &words)?)?;
    }
    Ok(text)
}
