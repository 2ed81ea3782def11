//! Values of inputs.

use lus_program::{Declared, Field, Kind, Node, Program, Variable};
use std::alloc::{AllocError, Global};

/// How deep structures are followed: more levels than there may be.
pub const MOST_LEVELS: usize = 64;

/// How many constructors an enumeration has, and 2 of every other type.
fn choices(program: &Program, kind: Kind) -> u32 {
    match kind {
        Kind::Enum(place) => match program.types.get(place as usize) {
            Some(Declared::Enumeration(names)) => (names.len().min(256) as u32).max(1),
            _ => 1,
        },
        _ => 2,
    }
}

/// Which of its constructors a variable is at a step: another one at each, beginning with the last of `false` and `true`, and with
/// the first of an enumeration.
fn choice(program: &Program, kind: Kind, step: u32) -> u32 {
    let count = choices(program, kind);
    let turn = match kind {
        Kind::Bool => step.saturating_add(1),
        _ => step,
    };
    if count == 0 { 0 } else { turn % count }
}

/// Whether the inputs up to one are there at a step, each in its place.
pub fn presences(
    alloc: Global,
    program: &Program,
    node: &Node,
    step: u32,
) -> Result<Vec<bool>, AllocError> {
    let mut present: Vec<bool> = Vec::new(alloc);
    for _variable in &node.variables {
        present.push(true)?;
    }
    for _round in 0..MOST_LEVELS {
        for (place, variable) in node.variables.iter().enumerate() {
            let is_present = is_present(program, node, variable, &present, step);
            if let Some(flag) = present.get_mut(place) {
                *flag = is_present;
            }
        }
    }
    Ok(present)
}

/// Whether a variable is there, by whether the one that its clock tests is.
fn is_present(
    program: &Program,
    node: &Node,
    variable: &Variable,
    present: &[bool],
    step: u32,
) -> bool {
    let Some(test) = variable.test else {
        return true;
    };
    match node.variables.get(test.variable as usize) {
        Some(tested) => {
            present
                .get(test.variable as usize)
                .copied()
                .unwrap_or(false)
                && choice(program, tested.kind, step) == test.constructor
        }
        None => false,
    }
}

/// Appends the name of a constructor, as JSON.
fn push_constructor(
    text: &mut String,
    program: &Program,
    enumeration: u32,
    constructor: u32,
) -> Result<(), AllocError> {
    match program.types.get(enumeration as usize) {
        Some(Declared::Enumeration(names)) => match names.get(constructor as usize) {
            Some(name) => write!(text, "\"{name}\""),
            None => text.push_str("null"),
        },
        _ => text.push_str("null"),
    }
}

/// The fields of a structure.
fn fields_of(program: &Program, structure: u32) -> &[Field] {
    match program.types.get(structure as usize) {
        Some(Declared::Structure(fields)) => fields.as_slice(),
        _ => &[],
    }
}

/// Appends a value of a type at a step, as JSON, in which structures nest at most so many levels.
#[cycle(values)]
pub fn push_value(
    text: &mut String,
    program: &Program,
    kind: Kind,
    step: u32,
    levels: usize,
) -> Result<(), AllocError> {
    match kind {
        Kind::Bool => {
            text.push_str(if choice(program, kind, step) == 1 {
                "true"
            } else {
                "false"
            })
        }
        Kind::Int => {
            let number = step.saturating_add(1);
            write!(text, "{number}")
        }
        Kind::Enum(place) => push_constructor(text, program, place, choice(program, kind, step)),
        Kind::Struct(place) => {
            if levels == 0 {
                return text.push_str("null");
            }
            push_fields(text, program, fields_of(program, place), step, levels - 1)
        }
    }
}

/// Appends an object of these fields, each with a value.
#[cycle(values)]
fn push_fields(
    text: &mut String,
    program: &Program,
    fields: &[Field],
    step: u32,
    levels: usize,
) -> Result<(), AllocError> {
    text.push_str("{")?;
    for (place, field) in fields.iter().enumerate() {
        let name = field.name.as_str();
        let comma = if place > 0 { "," } else { "" };
        write!(text, "{comma}\"{name}\":")?;
        push_value(text, program, field.kind, step, levels)?;
    }
    text.push_str("}")
}
