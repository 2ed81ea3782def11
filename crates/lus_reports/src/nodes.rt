//! What is said of a node.

use lus_program::{Declared, Kind, Node, Test, Variable};
use lus_syntax::NodeKind;
use lus_types::Typed;
use std::alloc::AllocError;

/// The program that a source means, with the names of its declared types.
#[derive(Drop)]
pub(crate) struct Source {
    pub types: Vec<String>,
    pub typed: Typed,
}

/// The name of a type, as it is declared.
pub(crate) fn type_name(source: &Source, kind: Kind) -> &str {
    match kind {
        Kind::Bool => "bool",
        Kind::Int => "int",
        Kind::Enum(place) => declared_name(source, place),
        Kind::Struct(place) => declared_name(source, place),
    }
}

/// The name of a declared type.
fn declared_name(source: &Source, place: u32) -> &str {
    match source.types.get(place as usize) {
        Some(name) => name.as_str(),
        None => "?",
    }
}

/// The name of a constructor of an enumeration.
fn constructor_name(source: &Source, enumeration: u32, place: u32) -> &str {
    match source
        .typed
        .sound()
        .program()
        .types
        .get(enumeration as usize)
    {
        Some(Declared::Enumeration(names)) => match names.get(place as usize) {
            Some(name) => name.as_str(),
            None => "?",
        },
        _ => "?",
    }
}

/// Appends the newest test of a clock.
fn push_test(
    text: &mut String,
    source: &Source,
    node: &Node,
    test: Test,
) -> Result<(), AllocError> {
    let Some(variable) = node.variables.get(test.variable as usize) else {
        return Ok(());
    };
    let name = variable.name.as_str();
    match variable.kind {
        Kind::Enum(enumeration) => {
            let constructor = constructor_name(source, enumeration, test.constructor);
            write!(text, " when {constructor}({name})")
        }
        _ if test.constructor == 0 => write!(text, " when not {name}"),
        _ => write!(text, " when {name}"),
    }
}

/// Appends a variable, with its type and its clock.
fn push_variable(
    text: &mut String,
    source: &Source,
    node: &Node,
    role: &str,
    variable: &Variable,
) -> Result<(), AllocError> {
    let name = variable.name.as_str();
    let kind = type_name(source, variable.kind);
    write!(text, "  {role} {name}: {kind}")?;
    if let Some(test) = variable.test {
        push_test(text, source, node, test)?;
    }
    text.push_str("\n")
}

/// Appends a node: its state cells, its inputs and its outputs.
pub(crate) fn push_node(
    text: &mut String,
    source: &Source,
    node: &Node,
    cells: Option<u32>,
) -> Result<(), AllocError> {
    push_name(text, node, cells)?;
    for (place, variable) in node.variables.iter().enumerate() {
        if place < node.inputs as usize {
            push_variable(text, source, node, "input ", variable)?;
        } else if place - (node.inputs as usize) < node.outputs as usize {
            push_variable(text, source, node, "output", variable)?;
        }
    }
    Ok(())
}

/// Appends what a node is, its name, and its state cells.
fn push_name(text: &mut String, node: &Node, cells: Option<u32>) -> Result<(), AllocError> {
    let kind = match node.kind {
        NodeKind::Node => "node",
        NodeKind::Function => "function",
    };
    let name = node.name.as_str();
    match cells {
        Some(1) => write!(text, "{kind} {name}, 1 state cell\n"),
        Some(cells) => write!(text, "{kind} {name}, {cells} state cells\n"),
        None => write!(text, "{kind} {name}\n"),
    }
}
