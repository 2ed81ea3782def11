//! Values that were read, and are of other types than a node's inputs.

use crate::names::{input_names, push_count, push_cut, push_name};
use crate::types::{fields_of, inputs_of, push_wanted};
use lus_program::{Declared, Field, Kind, Node, Program, Variable};
use lus_syntax::MOST_NESTING;
use lus_values::{Memory, Names, Row, Value, push_value};
use std::alloc::Global;

/// Whether a value is one of a type.
#[cycle(fits)]
fn is_of(program: &Program, kind: Kind, value: &Value) -> bool {
    match (kind, value) {
        (Kind::Bool, Value::Bool(_)) | (Kind::Int, Value::Int(_)) => true,
        (Kind::Enum(declared), Value::Enum(enumeration, _)) => declared == *enumeration,
        (Kind::Struct(declared), Value::Struct(fields)) => are_of(program, declared, fields),
        _ => false,
    }
}

/// Whether values are those of a structure's fields.
#[cycle(fits)]
fn are_of(program: &Program, structure: u32, values: &[Value]) -> bool {
    let Some(Declared::Structure(fields)) = program.types.get(structure as usize) else {
        return false;
    };
    if fields.len() != values.len() {
        return false;
    }
    for (field, value) in fields.iter().zip(values) {
        if !is_of(program, field.kind, value) {
            return false;
        }
    }
    true
}

/// The first field of a structure whose value is of another type, with that value.
fn wrong_field<'v>(
    program: &'v Program,
    kind: Kind,
    value: &'v Value,
) -> Option<(&'v Field, &'v Value)> {
    let Value::Struct(parts) = value else {
        return None;
    };
    let fields = fields_of(program, kind);
    if fields.len() != parts.len() {
        return None;
    }
    for (field, part) in fields.iter().zip(parts) {
        if !is_of(program, field.kind, part) {
            return Some((field, part));
        }
    }
    None
}

/// Appends a value that is given.
fn push_given(
    text: &mut String,
    alloc: Global,
    names: &Names,
    value: &Value,
) -> Result<(), Memory> {
    let mut given = String::new(alloc);
    push_value(&mut given, value, names)?;
    if let Value::Enum(_, _) = value {
        text.push_str(", and the constructor ")?;
        push_name(text, &given)?;
    } else {
        text.push_str(", and ")?;
        push_cut(text, &given)?;
    }
    text.push_str(" is given")?;
    Ok(())
}

/// Appends where an input's value is of another type.
fn push_misfit(
    text: &mut String,
    alloc: Global,
    program: &Program,
    names: &Names,
    input: &Variable,
    given: &Value,
) -> Result<(), Memory> {
    let mut path = String::from_str(alloc, input.name.as_str())?;
    let mut kind = input.kind;
    let mut value = given;
    for _level in 0..MOST_NESTING {
        let Some((field, part)) = wrong_field(program, kind, value) else {
            break;
        };
        path.push_str(".")?;
        path.push_str(field.name.as_str())?;
        kind = field.kind;
        value = part;
    }
    push_wanted(text, alloc, program, &path, kind)?;
    push_given(text, alloc, names, value)
}

/// Appends which input, or which field of one, has a value of another type; or that they are too many or too few. Of inputs that fit it
/// appends nothing.
pub fn push_shape(
    text: &mut String,
    alloc: Global,
    program: &Program,
    names: &Names,
    node: &Node,
    row: &Row,
) -> Result<(), Memory> {
    let inputs = inputs_of(node);
    if row.items().len() != inputs.len() {
        let names = input_names(alloc, inputs)?;
        return push_count(text, row.items().len(), "item", "input", &names);
    }
    for (input, item) in inputs.iter().zip(row.items()) {
        if let Some(value) = item
            && !is_of(program, input.kind, value)
        {
            return push_misfit(text, alloc, program, names, input, value);
        }
    }
    Ok(())
}
