//! What nodes an accepted program has, and what types their inputs and outputs have.

use crate::nodes::{Source, push_node};
use crate::types::push_types;
use lus_cells::cells_of_nodes;
use lus_cli::lus_host::text_of;
use lus_grammar::parse;
use lus_syntax::{Refusal, Tree, lex};
use lus_types::check_types;
use std::alloc::{AllocError, Global};

/// The names of the types that a tree declares, in its order.
fn type_names(alloc: Global, tree: &Tree) -> Result<Vec<String>, AllocError> {
    let mut names = Vec::with_capacity(alloc, tree.types.len())?;
    for declaration in &tree.types {
        names.push(declaration.name.text.clone()?)?;
    }
    Ok(names)
}

/// The program that a source means, with the names of its declared types.
fn source_of(alloc: Global, text: &str) -> Result<Source, Refusal> {
    let tokens = lex(alloc, text)?;
    let tree = parse(alloc, &tokens)?;
    let types = type_names(alloc, &tree)?;
    let typed = check_types(alloc, tree)?;
    Ok(Source { types, typed })
}

/// The types of inputs and outputs, and the nodes, each with its state cells, its inputs and its outputs.
fn outline_text(alloc: Global, source: &Source, cells: &[u32]) -> Result<String, AllocError> {
    let mut text = String::new(alloc);
    push_types(alloc, &mut text, source)?;
    for (place, node) in source.typed.sound().program().nodes.iter().enumerate() {
        if place > 0 {
            text.push_str("\n")?;
        }
        push_node(&mut text, source, node, cells.get(place).copied())?;
    }
    Ok(text)
}

/// The nodes of an accepted program: of each its state cells, and its inputs and outputs with their types and clocks, as they
/// are declared; before them these types, as they are declared. Another one may be refused.
pub fn outline(alloc: Global, bytes: &[u8]) -> Result<String, Refusal> {
    let text = text_of(bytes)?;
    let source = source_of(alloc, text)?;
    let cells = cells_of_nodes(alloc, source.typed.sound())?;
    Ok(outline_text(alloc, &source, &cells)?)
}
