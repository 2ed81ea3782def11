//! Items of steps that are no values where they stand.

use crate::names::{field_names, input_names, push_count, push_cut, push_name, push_unknown};
use crate::types::{fields_of, push_wanted, push_word};
use lus_program::{Field, Kind, Program, Variable};
use lus_scripts::{ScriptRefusal, read_item};
use lus_syntax::MOST_NESTING;
use lus_values::{Memory, Names};
use serde_json::{Map, Value};
use std::alloc::Global;

/// What the items of a step are read by: a program, the names of its constructors, and the inputs of a node.
#[derive(Clone, Copy)]
pub struct Scope<'p> {
    pub alloc: Global,
    pub program: &'p Program,
    pub names: &'p Names,
    pub inputs: &'p [Variable],
}

/// Whether a value is none at the place of a type.
fn is_refused(scope: Scope<'_>, kind: Option<Kind>, item: &Value) -> Result<bool, Memory> {
    match read_item(scope.alloc, scope.program, scope.names, kind, item) {
        Ok(_) => Ok(false),
        Err(ScriptRefusal::Memory) => Err(Memory),
        Err(_) => Ok(true),
    }
}

/// The type of the nth input.
fn kind_at(inputs: &[Variable], place: usize) -> Option<Kind> {
    Some(inputs.get(place)?.kind)
}

/// The place of the first item that is no value where it stands.
pub fn refused_place(scope: Scope<'_>, items: &[Value]) -> Result<Option<usize>, Memory> {
    for (place, item) in items.iter().enumerate() {
        if is_refused(scope, kind_at(scope.inputs, place), item)? {
            return Ok(Some(place));
        }
    }
    Ok(None)
}

/// Whether a name is one of these.
pub(crate) fn is_among(names: &[&str], name: &str) -> bool {
    names.contains(&name)
}

/// The first key of an object that is none of these names.
pub(crate) fn other_key<'v>(members: &'v Map<String, Value>, names: &[&str]) -> Option<&'v str> {
    for key in members.keys() {
        if !is_among(names, key.as_str()) {
            return Some(key.as_str());
        }
    }
    None
}

/// The first field that an object lacks.
fn missing_field<'p>(fields: &'p [Field], object: &Value) -> Option<&'p str> {
    for field in fields {
        if object.get(field.name.as_str()).is_none() {
            return Some(field.name.as_str());
        }
    }
    None
}

/// Whether a value is none of a field, which is never absent.
fn is_no_field(scope: Scope<'_>, field: &Field, part: &Value) -> Result<bool, Memory> {
    if part.is_null() {
        return Ok(true);
    }
    is_refused(scope, Some(field.kind), part)
}

/// The first field whose value in an object is none, with that value.
fn refused_field<'v>(
    scope: Scope<'v>,
    kind: Kind,
    object: &'v Value,
) -> Result<Option<(&'v Field, &'v Value)>, Memory> {
    for field in fields_of(scope.program, kind) {
        if let Some(part) = object.get(field.name.as_str()) {
            if is_no_field(scope, field, part)? {
                return Ok(Some((field, part)));
            }
        }
    }
    Ok(None)
}

/// Appends which key of an object is no field of a structure, or which field it lacks, and says whether there was one.
fn push_wrong_fields(
    text: &mut String,
    scope: Scope<'_>,
    path: &str,
    kind: Kind,
    value: &Value,
) -> Result<bool, Memory> {
    let (Kind::Struct(_), Some(members)) = (kind, value.as_object()) else {
        return Ok(false);
    };
    let fields = fields_of(scope.program, kind);
    let names = field_names(scope.alloc, fields)?;
    let other = other_key(members, &names);
    let missing = missing_field(fields, value);
    if other.is_none() && missing.is_none() {
        return Ok(false);
    }
    text.push_str("input ")?;
    push_name(text, path)?;
    if let Some(key) = other {
        push_unknown(
            text,
            scope.alloc,
            " has no field ",
            key,
            "; its fields are ",
            &names,
        )?;
    } else if let Some(field) = missing {
        text.push_str(" lacks its field ")?;
        push_name(text, field)?;
    }
    Ok(true)
}

/// Appends a value of JSON that is given.
pub(crate) fn push_json(text: &mut String, alloc: Global, value: &Value) -> Result<(), Memory> {
    let given = value.to_string(alloc)?;
    push_cut(text, &given)
}

/// Appends what is wrong with a value that is none of its type, and is no object of that type's fields.
fn push_refused(
    text: &mut String,
    scope: Scope<'_>,
    path: &str,
    kind: Kind,
    value: &Value,
) -> Result<(), Memory> {
    if let (Kind::Enum(_), Value::String(word)) = (kind, value) {
        return push_word(text, scope.alloc, scope.program, path, kind, word.as_str());
    }
    push_wanted(text, scope.alloc, scope.program, path, kind)?;
    text.push_str(", and ")?;
    push_json(text, scope.alloc, value)?;
    text.push_str(" is given")?;
    if kind == Kind::Int && value.is_u64() {
        text.push_str(", which is more than 9223372036854775807")?;
    }
    Ok(())
}

/// Appends what is wrong with a value that is none where an input stands: with it, or with a field of it.
pub(crate) fn push_item(
    text: &mut String,
    scope: Scope<'_>,
    input: &Variable,
    item: &Value,
) -> Result<(), Memory> {
    let mut path = String::from_str(scope.alloc, input.name.as_str())?;
    let mut kind = input.kind;
    let mut value = item;
    for _level in 0..MOST_NESTING {
        if push_wrong_fields(text, scope, &path, kind, value)? {
            return Ok(());
        }
        let Some((field, part)) = refused_field(scope, kind, value)? else {
            break;
        };
        path.push_str(".")?;
        path.push_str(field.name.as_str())?;
        kind = field.kind;
        value = part;
    }
    push_refused(text, scope, &path, kind, value)
}

/// Appends what is wrong with the item at a place, which is no value there.
pub fn push_placed(
    text: &mut String,
    scope: Scope<'_>,
    items: &[Value],
    place: usize,
) -> Result<(), Memory> {
    match (scope.inputs.get(place), items.get(place)) {
        (Some(input), Some(item)) => push_item(text, scope, input, item),
        _ => {
            let names = input_names(scope.alloc, scope.inputs)?;
            push_count(text, items.len(), "item", "input", &names)
        }
    }
}

/// Appends what is wrong with the value that an object gives to an input, if that is no value, and says whether it was.
pub(crate) fn push_named(
    text: &mut String,
    scope: Scope<'_>,
    input: &Variable,
    given: &Value,
) -> Result<bool, Memory> {
    let Some(item) = given.get(input.name.as_str()) else {
        return Ok(false);
    };
    if !is_refused(scope, Some(input.kind), item)? {
        return Ok(false);
    }
    push_item(text, scope, input, item)?;
    Ok(true)
}
