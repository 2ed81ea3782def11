//! Types in sentences.

use crate::names::{field_names, names_of, push_cut, push_name, push_names, push_unknown};
use lus_program::{Declared, Field, Kind, Node, Program, Variable};
use lus_values::Memory;
use std::alloc::Global;

/// The inputs of a node, in declared order.
pub fn inputs_of(node: &Node) -> &[Variable] {
    let inputs = (node.inputs as usize).min(node.variables.len());
    &node.variables[..inputs]
}

/// The fields of a structure type; another type has none.
pub(crate) fn fields_of(program: &Program, kind: Kind) -> &[Field] {
    let Kind::Struct(place) = kind else {
        return &[];
    };
    match program.types.get(place as usize) {
        Some(Declared::Structure(fields)) => fields,
        _ => &[],
    }
}

/// The constructors of an enumeration type; another type has none.
fn constructors_of(program: &Program, kind: Kind) -> &[String] {
    let Kind::Enum(place) = kind else {
        return &[];
    };
    match program.types.get(place as usize) {
        Some(Declared::Enumeration(constructors)) => constructors,
        _ => &[],
    }
}

/// Appends of which type an input is, or the field of one at the end of a path.
pub(crate) fn push_wanted(
    text: &mut String,
    alloc: Global,
    program: &Program,
    path: &str,
    kind: Kind,
) -> Result<(), Memory> {
    text.push_str("input ")?;
    push_name(text, path)?;
    match kind {
        Kind::Bool => text.push_str(" is a bool")?,
        Kind::Int => text.push_str(" is an int")?,
        Kind::Enum(_) => {
            text.push_str(" is one of ")?;
            let names = names_of(alloc, constructors_of(program, kind))?;
            push_names(text, &names)?;
        }
        Kind::Struct(_) => {
            text.push_str(" is a structure of ")?;
            let names = field_names(alloc, fields_of(program, kind))?;
            push_names(text, &names)?;
        }
    }
    Ok(())
}

/// Appends that no constructor of an enumeration has the name that is given.
pub(crate) fn push_word(
    text: &mut String,
    alloc: Global,
    program: &Program,
    path: &str,
    kind: Kind,
    word: &str,
) -> Result<(), Memory> {
    text.push_str("input ")?;
    push_name(text, path)?;
    let names = names_of(alloc, constructors_of(program, kind))?;
    push_unknown(
        text,
        alloc,
        " has no constructor ",
        word,
        "; it is one of ",
        &names,
    )
}

/// Appends what is wrong with a cell that is no value of a type.
pub fn push_cell(
    text: &mut String,
    alloc: Global,
    program: &Program,
    path: &str,
    kind: Kind,
    cell: &[u8],
) -> Result<(), Memory> {
    let given = String::from_utf8_lossy(alloc, cell)?;
    if let Kind::Enum(_) = kind
        && !given.is_empty()
    {
        return push_word(text, alloc, program, path, kind, &given);
    }
    push_wanted(text, alloc, program, path, kind)?;
    if given.is_empty() {
        text.push_str(", and its cell is empty")?;
        return Ok(());
    }
    text.push_str(", and the cell `")?;
    push_cut(text, &given)?;
    text.push_str("` is given")?;
    Ok(())
}
