//! Values of steps, read by the types of the inputs where they stand.

ghost use Rattle.std.specs.Prelude.{◌≡◌, ◌⊎◌, IfErr, IfOk, Err, Some, None, map, option_map, option_and_then};
ghost use Rattle.serde_json.specs.Find.{get};
ghost use Rattle.serde_json.specs.View.{view};
ghost use Rattle.lus_values.specs.View.{entry_of, value_of};
ghost use Rattle.lus_program.specs.View.{field_of, node_of, program_seen};
ghost use Rattle.lus_scripts.specs.Forms.{each};
ghost use Rattle.lus_scripts.specs.Scripts.{fields_at, input_kind, item_of_json, listed_row, row_from, scalar, value_at, value_of_json};

use crate::form::{as_list, member_count};
use crate::refusal::ScriptRefusal;
use lus_program::{Declared, Field, Kind, Node, Program};
use lus_requests::Rows;
use lus_syntax::MOST_NESTING;
use lus_values::{Names, Row, Value};
use serde_json::Value as Json;
use std::alloc::Global;

/// A number, a truth value, or the name of a constructor.
fn read_scalar(names: &Names, json: &Json) -> Option<Value>
    ensures { option_map value_of result ≡ scalar names.now (view json.now) }
{
    match json {
        Json::Bool(truth) => Some(Value::Bool(*truth)),
        Json::Number(number) => Some(Value::Int(number.as_i64()?)),
        Json::String(name) => {
            let (enumeration, constructor) = names.find(name.as_str())?;
            Some(Value::Enum(enumeration, constructor))
        }
        _ => None,
    }
}

/// The fields of a structure type.
fn fields_at(program: &Program, kind: Option<Kind>) -> Option<&[Field]>
    ensures { option_map (λ fs. map field_of fs.now) result ≡ fields_at (program_seen program.now) kind }
{
    let Some(Kind::Struct(structure)) = kind else {
        return None;
    };
    match program.types.get(structure as usize)? {
        Declared::Structure(fields) => Some(fields.as_slice()),
        _ => None,
    }
}

/// The value at the place of a type, in which objects nest at most this many levels.
#[cycle(values)]
fn read_value(
    alloc: Global,
    program: &Program,
    names: &Names,
    levels: usize,
    kind: Option<Kind>,
    json: &Json,
) -> Result<Value, ScriptRefusal>
    ensures ok { IfOk result (λ v. value_at levels (program_seen program.now) names.now kind (view json.now) ≡ Some (value_of v)) }
    ensures form { result ≡ Err ScriptRefusal.Form → value_at levels (program_seen program.now) names.now kind (view json.now) ≡ None }
    ensures errors { IfErr result (λ e. (e ≡ ScriptRefusal.Form) ⊎ (e ≡ ScriptRefusal.Memory)) }
{
    let Some(_) = json.as_object() else {
        return read_scalar(names, json).ok_or(ScriptRefusal::Form);
    };
    if levels == 0 {
        return Err(ScriptRefusal::Form);
    }
    let fields = fields_at(program, kind).ok_or(ScriptRefusal::Form)?;
    if member_count(json) != fields.len() {
        return Err(ScriptRefusal::Form);
    }
    let values = read_fields(alloc, program, names, levels - 1, fields, json)?;
    Ok(Value::Struct(values))
}

/// The values of the fields of an object, each read by its field's type.
#[cycle(values)]
fn read_fields(
    alloc: Global,
    program: &Program,
    names: &Names,
    levels: usize,
    fields: &[Field],
    object: &Json,
) -> Result<Vec<Value>, ScriptRefusal>
    ensures ok { IfOk result (λ v.
        each (λ f. option_and_then (value_at levels (program_seen program.now) names.now (Some f.kind)) (get f.name (view object.now)))
        (map field_of fields.now) ≡ Some (map value_of v.items)) }
    ensures form { result ≡ Err ScriptRefusal.Form
        → each (λ f. option_and_then (value_at levels (program_seen program.now) names.now (Some f.kind)) (get f.name (view object.now)))
        (map field_of fields.now) ≡ None }
    ensures errors { IfErr result (λ e. (e ≡ ScriptRefusal.Form) ⊎ (e ≡ ScriptRefusal.Memory)) }
{
    let mut values = Vec::new(alloc);
    for field in fields {
        let json = object.get(field.name.as_str()).ok_or(ScriptRefusal::Form)?;
        let value = read_value(alloc, program, names, levels, Some(field.kind), json)?;
        values.push(value)?;
    }
    Ok(values)
}

/// The type of a node's nth input.
fn input_kind(node: Option<&Node>, place: usize) -> Option<Kind>
    ensures { result ≡ input_kind (option_map (λ f. node_of f.now) node.entry) place }
{
    let node = node?;
    if place < node.inputs as usize {
        Some(node.variables.get(place)?.kind)
    } else {
        None
    }
}

/// The value at the place of a type.
fn read_typed(
    alloc: Global,
    program: &Program,
    names: &Names,
    kind: Option<Kind>,
    json: &Json,
) -> Result<Value, ScriptRefusal>
    ensures ok { IfOk result (λ v. value_of_json (program_seen program.now) names.now kind (view json.now) ≡ Some (value_of v)) }
    ensures form { result ≡ Err ScriptRefusal.Form → value_of_json (program_seen program.now) names.now kind (view json.now) ≡ None }
    ensures errors { IfErr result (λ e. (e ≡ ScriptRefusal.Form) ⊎ (e ≡ ScriptRefusal.Memory)) }
{
    read_value(alloc, program, names, MOST_NESTING, kind, json)
}

/// Reads an item of a step at the place of an input of this type, or where there is no input: null is absent. A refusal is `Form`.
pub fn read_item(
    alloc: Global,
    program: &Program,
    names: &Names,
    kind: Option<Kind>,
    json: &Json,
) -> Result<Option<Value>, ScriptRefusal>
    ensures ok { IfOk result (λ v. item_of_json (program_seen program.now) names.now kind (view json.now) ≡ Some (entry_of v)) }
    ensures form { result ≡ Err ScriptRefusal.Form → item_of_json (program_seen program.now) names.now kind (view json.now) ≡ None }
    ensures errors { IfErr result (λ e. (e ≡ ScriptRefusal.Form) ⊎ (e ≡ ScriptRefusal.Memory)) }
{
    if json.is_null() {
        return Ok(None);
    }
    let value = read_typed(alloc, program, names, kind, json)?;
    Ok(Some(value))
}

/// The inputs of a step of a node.
pub(crate) fn read_row(
    alloc: Global,
    program: &Program,
    names: &Names,
    node: Option<&Node>,
    items: &[Json],
) -> Result<Row, ScriptRefusal>
    ensures ok { IfOk result (λ row.
        row_from (program_seen program.now) names.now (option_map (λ f. node_of f.now) node.entry) 0 (map view items.now) ≡ Some row) }
    ensures form { result ≡ Err ScriptRefusal.Form
        → row_from (program_seen program.now) names.now (option_map (λ f. node_of f.now) node.entry) 0 (map view items.now) ≡ None }
    ensures errors { IfErr result (λ e. (e ≡ ScriptRefusal.Form) ⊎ (e ≡ ScriptRefusal.Memory)) }
{
    let mut row = Vec::new(alloc);
    for (place, item) in items.iter().enumerate() {
        row.push(read_item(alloc, program, names, input_kind(node, place), item)?)?;
    }
    Ok(Row::new(row))
}

fn read_listed_row(
    alloc: Global,
    program: &Program,
    names: &Names,
    node: Option<&Node>,
    json: &Json,
) -> Result<Row, ScriptRefusal>
    ensures ok { IfOk result (λ row.
        listed_row (program_seen program.now) names.now (option_map (λ f. node_of f.now) node.entry) (view json.now) ≡ Some row) }
    ensures form { result ≡ Err ScriptRefusal.Form
        → listed_row (program_seen program.now) names.now (option_map (λ f. node_of f.now) node.entry) (view json.now) ≡ None }
    ensures errors { IfErr result (λ e. (e ≡ ScriptRefusal.Form) ⊎ (e ≡ ScriptRefusal.Memory)) }
{
    let items = as_list(json).ok_or(ScriptRefusal::Form)?;
    read_row(alloc, program, names, node, items)
}

/// The rows of a burst of a node.
pub(crate) fn read_rows(
    alloc: Global,
    program: &Program,
    names: &Names,
    node: Option<&Node>,
    lists: &[Json],
) -> Result<Rows, ScriptRefusal>
    ensures ok { IfOk result (λ rows.
        each (listed_row (program_seen program.now) names.now (option_map (λ f. node_of f.now) node.entry)) (map view lists.now) ≡ Some rows) }
    ensures form { result ≡ Err ScriptRefusal.Form
        → each (listed_row (program_seen program.now) names.now (option_map (λ f. node_of f.now) node.entry)) (map view lists.now) ≡ None }
    ensures errors { IfErr result (λ e. (e ≡ ScriptRefusal.Form) ⊎ (e ≡ ScriptRefusal.Memory)) }
{
    let mut rows = Vec::new(alloc);
    for list in lists {
        let row = read_listed_row(alloc, program, names, node, list)?;
        rows.push(row)?;
    }
    Ok(Rows::new(rows))
}
