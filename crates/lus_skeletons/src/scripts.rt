//! Scripts for a node.

use crate::inputs::{MOST_LEVELS, presences, push_value};
use lus_program::{Node, Program};
use std::alloc::{AllocError, Global};

/// How many steps a skeleton has.
const STEPS: u32 = 3;

/// The node of this name, if there is one.
pub fn node_named<'p>(program: &'p Program, name: &str) -> Option<&'p Node> {
    for node in &program.nodes {
        if node.name.as_str() == name {
            return Some(node);
        }
    }
    None
}

/// Appends the call of a step: a value for each input that is there, and `null` for each that isn't.
fn push_step(
    alloc: Global,
    text: &mut String,
    program: &Program,
    node: &Node,
    step: u32,
) -> Result<(), AllocError> {
    let present = presences(alloc, program, node, step)?;
    text.push_str("    {\"on\":\"one\",\"step\":[")?;
    for (place, variable) in node.variables.iter().enumerate() {
        if place < node.inputs as usize {
            if place > 0 {
                text.push_str(",")?;
            }
            if present.get(place).copied().unwrap_or(false) {
                push_value(text, program, variable.kind, step, MOST_LEVELS)?;
            } else {
                text.push_str("null")?;
            }
        }
    }
    text.push_str("]}")
}

/// Scripts that make an instance of a node and call three steps of it, with a value for each input at each step, and none for those
/// that their clocks don't have there.
pub fn skeleton(alloc: Global, program: &Program, node: &Node) -> Result<String, AllocError> {
    let name = node.name.as_str();
    let mut text = String::new(alloc);
    write!(
        text,
        "{{\"instances\":[{{\"name\":\"one\",\"node\":\"{name}\"}}],\n"
    )?;
    text.push_str(" \"callers\":[\n   {\"name\":\"user\",\"calls\":[\n")?;
    for step in 0..STEPS {
        if step > 0 {
            text.push_str(",\n")?;
        }
        push_step(alloc, &mut text, program, node, step)?;
    }
    text.push_str("]}]}\n")?;
    Ok(text)
}
