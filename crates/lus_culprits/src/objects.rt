//! Objects that are no calls.

use crate::items::{Scope, is_among, other_key, push_json, push_named, push_placed, refused_place};
use crate::names::{input_names, push_name, push_names, push_unknown};
use lus_scripts::as_list;
use lus_values::Memory;
use serde_json::{Map, Value};
use std::alloc::Global;

/// What an object may ask, by its one key.
static KINDS: [&str; 6] = ["inputs", "step", "burst", "reset", "save", "restore"];

/// What a call of scripts may have keys of.
static KEYS: [&str; 6] = ["on", "step", "burst", "reset", "save", "restore"];

/// The kinds of calls that an object has keys of.
fn kinds_in(alloc: Global, object: &Value) -> Result<Vec<&'static str>, Memory> {
    let mut kinds = Vec::new(alloc);
    for kind in &KINDS {
        if object.get(*kind).is_some() {
            kinds.push(*kind)?;
        }
    }
    Ok(kinds)
}

/// Appends that the inputs of a step stand under a key.
fn push_bare(text: &mut String, names: &[&str]) -> Result<(), Memory> {
    text.push_str("inputs stand by their names under the key `inputs`: {\"inputs\": {")?;
    for (place, name) in names.iter().enumerate() {
        if place > 3 {
            text.push_str(", ..")?;
            break;
        }
        text.push_str(if place > 0 { ", \"" } else { "\"" })?;
        text.push_str(*name)?;
        text.push_str("\": ..")?;
    }
    text.push_str("}}")?;
    Ok(())
}

/// Appends what is wrong with an object that has no key of a kind of call: of an empty one nothing.
fn push_no_kind(
    text: &mut String,
    scope: Scope<'_>,
    members: &Map<String, Value>,
) -> Result<(), Memory> {
    let names = input_names(scope.alloc, scope.inputs)?;
    for key in members.keys() {
        if is_among(&names, key.as_str()) {
            return push_bare(text, &names);
        }
    }
    match other_key(members, &[]) {
        Some(key) => {
            let known = "; its key is one of ";
            push_unknown(
                text,
                scope.alloc,
                "no call has the key ",
                key,
                known,
                &KINDS,
            )
        }
        None => Ok(()),
    }
}

/// Appends that a value is given where a kind of call has something else.
fn push_otherwise(
    text: &mut String,
    alloc: Global,
    kind: &str,
    wanted: &str,
    value: &Value,
) -> Result<(), Memory> {
    push_name(text, kind)?;
    text.push_str(wanted)?;
    text.push_str(", and ")?;
    push_json(text, alloc, value)?;
    text.push_str(" is given")?;
    Ok(())
}

/// Appends what is wrong with the inputs of a step in their order.
fn push_step(text: &mut String, scope: Scope<'_>, value: &Value) -> Result<(), Memory> {
    let Some(items) = as_list(value) else {
        let wanted = " is a list of inputs in their order (`inputs` has them by their names)";
        return push_otherwise(text, scope.alloc, "step", wanted, value);
    };
    push_list(text, scope, items)
}

/// Appends what is wrong with a list of inputs.
pub(crate) fn push_list(
    text: &mut String,
    scope: Scope<'_>,
    items: &[Value],
) -> Result<(), Memory> {
    match refused_place(scope, items)? {
        Some(place) => push_placed(text, scope, items, place),
        None => Ok(()),
    }
}

/// Appends what is wrong with the rows of a burst.
fn push_burst(text: &mut String, scope: Scope<'_>, value: &Value) -> Result<(), Memory> {
    let Some(rows) = as_list(value) else {
        let wanted = " is a list of rows, each a list of inputs";
        return push_otherwise(text, scope.alloc, "burst", wanted, value);
    };
    let mut row = 0u64;
    for listed in rows {
        row = row.saturating_add(1);
        let Some(items) = as_list(listed) else {
            write!(text, "row {row} of ")?;
            return push_otherwise(text, scope.alloc, "burst", " is a list of inputs", listed);
        };
        let mut fault = String::new(scope.alloc);
        push_list(&mut fault, scope, items)?;
        if !fault.is_empty() {
            write!(text, "row {row}, {fault}")?;
            return Ok(());
        }
    }
    Ok(())
}

/// Appends what is wrong with inputs by their names.
fn push_inputs(text: &mut String, scope: Scope<'_>, value: &Value) -> Result<(), Memory> {
    let Some(members) = value.as_object() else {
        let wanted = " is an object of inputs by their names (`step` has them in their order)";
        return push_otherwise(text, scope.alloc, "inputs", wanted, value);
    };
    let names = input_names(scope.alloc, scope.inputs)?;
    if let Some(key) = other_key(members, &names) {
        let known = "; the inputs are ";
        return push_unknown(text, scope.alloc, "no input ", key, known, &names);
    }
    for input in scope.inputs {
        if push_named(text, scope, input, value)? {
            return Ok(());
        }
    }
    Ok(())
}

/// Appends what is wrong with what is asked under a key.
fn push_asked(
    text: &mut String,
    scope: Scope<'_>,
    kind: &str,
    value: &Value,
) -> Result<(), Memory> {
    match kind.as_bytes() {
        b"inputs" => push_inputs(text, scope, value),
        b"step" => push_step(text, scope, value),
        b"burst" => push_burst(text, scope, value),
        b"reset" => push_otherwise(text, scope.alloc, kind, " is true", value),
        _ => push_otherwise(
            text,
            scope.alloc,
            kind,
            " is a slot, a whole number from 0 to 7",
            value,
        ),
    }
}

/// Appends which key of an object is none of these, if one is.
fn push_other_key(
    text: &mut String,
    alloc: Global,
    object: &Value,
    keys: &[&str],
) -> Result<(), Memory> {
    let Some(members) = object.as_object() else {
        return Ok(());
    };
    match other_key(members, keys) {
        Some(key) => { push_unknown(text, alloc, "it has no key ", key, "; its keys are ", keys) }
        None => Ok(()),
    }
}

/// Appends to an empty text which key of an object is none of these, or else which of these it lacks.
pub fn push_keys(
    text: &mut String,
    alloc: Global,
    object: &Value,
    keys: &[&str],
) -> Result<(), Memory> {
    push_other_key(text, alloc, object, keys)?;
    for key in keys {
        if text.is_empty() && object.is_object() && object.get(*key).is_none() {
            text.push_str("it lacks its key ")?;
            push_name(text, *key)?;
        }
    }
    Ok(())
}

/// Appends to an empty text what is wrong with the keys of a call of scripts: where it is of no kind, only a key of no call.
pub fn push_call_keys(text: &mut String, alloc: Global, call: &Value) -> Result<(), Memory> {
    let kinds = kinds_in(alloc, call)?;
    if kinds.len() > 1 {
        return push_kinds(text, &kinds);
    }
    match kinds.first() {
        Some(kind) if is_among(&KEYS, *kind) => push_keys(text, alloc, call, &["on", *kind]),
        _ => push_other_key(text, alloc, call, &KEYS),
    }
}

/// Appends what is wrong with an object that has the key of a kind of call.
fn push_of_kind(
    text: &mut String,
    scope: Scope<'_>,
    kind: &str,
    object: &Value,
    members: &Map<String, Value>,
) -> Result<(), Memory> {
    if let Some(key) = other_key(members, &[kind]) {
        text.push_str("a call has one key, and ")?;
        push_name(text, key)?;
        text.push_str(" stands beside ")?;
        return push_name(text, kind);
    }
    match object.get(kind) {
        Some(value) => push_asked(text, scope, kind, value),
        None => Ok(()),
    }
}

/// Appends that a call is of several kinds.
fn push_kinds(text: &mut String, kinds: &[&str]) -> Result<(), Memory> {
    text.push_str("a call is of one kind, and these are given: ")?;
    push_names(text, kinds)
}

/// Appends what is wrong with an object that is no call.
pub(crate) fn push_object(
    text: &mut String,
    scope: Scope<'_>,
    object: &Value,
    members: &Map<String, Value>,
) -> Result<(), Memory> {
    let kinds = kinds_in(scope.alloc, object)?;
    if kinds.len() > 1 {
        return push_kinds(text, &kinds);
    }
    match kinds.first() {
        Some(kind) => push_of_kind(text, scope, *kind, object, members),
        None => push_no_kind(text, scope, members),
    }
}
