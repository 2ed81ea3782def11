//! What is said of the types that inputs and outputs have.

use crate::nodes::{Source, type_name};
use lus_program::{Declared, Field, Kind, Program};
use lus_syntax::MOST_NESTING;
use std::alloc::{AllocError, Global};

/// Marks a declared type.
fn mark(shown: &mut [bool], kind: Kind) {
    let place = match kind {
        Kind::Enum(place) => place,
        Kind::Struct(place) => place,
        Kind::Bool | Kind::Int => return,
    };
    if let Some(flag) = shown.get_mut(place as usize) {
        *flag = true;
    }
}

/// Marks the declared types of the inputs and outputs of nodes.
fn mark_formals(shown: &mut [bool], program: &Program) {
    for node in &program.nodes {
        for (place, variable) in node.variables.iter().enumerate() {
            if place < node.inputs as usize
                || place - (node.inputs as usize) < node.outputs as usize
            {
                mark(shown, variable.kind);
            }
        }
    }
}

/// Marks the declared types of the fields of those that are marked.
fn mark_fields(shown: &mut [bool], program: &Program) {
    for (place, declared) in program.types.iter().enumerate() {
        if shown.get(place).copied().unwrap_or(false)
            && let Declared::Structure(fields) = declared
        {
            for field in fields {
                mark(shown, field.kind);
            }
        }
    }
}

/// Which declared types inputs and outputs have, or fields of these at any depth.
fn shown_types(alloc: Global, program: &Program) -> Result<Vec<bool>, AllocError> {
    let mut shown = Vec::new(alloc);
    for _declared in &program.types {
        shown.push(false)?;
    }
    mark_formals(&mut shown, program);
    for _level in 0..MOST_NESTING {
        mark_fields(&mut shown, program);
    }
    Ok(shown)
}

/// Appends the constructors of an enumeration.
fn push_constructors(text: &mut String, names: &[String]) -> Result<(), AllocError> {
    text.push_str("enum { ")?;
    for (place, name) in names.iter().enumerate() {
        let comma = if place > 0 { ", " } else { "" };
        let name = name.as_str();
        write!(text, "{comma}{name}")?;
    }
    text.push_str(" }")
}

/// Appends the fields of a structure, with their types.
fn push_fields(text: &mut String, source: &Source, fields: &[Field]) -> Result<(), AllocError> {
    text.push_str("struct { ")?;
    for (place, field) in fields.iter().enumerate() {
        let semicolon = if place > 0 { "; " } else { "" };
        let name = field.name.as_str();
        let kind = type_name(source, field.kind);
        write!(text, "{semicolon}{name}: {kind}")?;
    }
    text.push_str(" }")
}

/// Appends a type as it is declared.
fn push_type(
    text: &mut String,
    source: &Source,
    name: &str,
    declared: &Declared,
) -> Result<(), AllocError> {
    write!(text, "type {name} = ")?;
    match declared {
        Declared::Alias(kind) => text.push_str(type_name(source, *kind))?,
        Declared::Enumeration(names) => push_constructors(text, names)?,
        Declared::Structure(fields) => push_fields(text, source, fields)?,
    }
    text.push_str("\n")
}

/// Appends the types of inputs and outputs, and of their fields, with a line feed behind them if there are any.
pub(crate) fn push_types(
    alloc: Global,
    text: &mut String,
    source: &Source,
) -> Result<(), AllocError> {
    let program = source.typed.sound().program();
    let shown = shown_types(alloc, program)?;
    let mut any = false;
    for (place, declared) in program.types.iter().enumerate() {
        if shown.get(place).copied().unwrap_or(false)
            && let Some(name) = source.types.get(place)
        {
            any = true;
            push_type(text, source, name, declared)?;
        }
    }
    if any { text.push_str("\n") } else { Ok(()) }
}
