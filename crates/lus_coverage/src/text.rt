//! The texts of nodes, as runs go over them.

use crate::branch::{Choice, choice_at, width};
use lus_parts::{Part, parts_of};
use lus_program::{Form, Node, Program};
use lus_values::Memory;
use std::alloc::Global;

/// The text of a node: its parts, each before those in it; of each part which branch of the expression around it it is; and the nodes
/// that the text calls, by the calls' numbers.
#[derive(Drop)]
pub(crate) struct Text<'p> {
    pub parts: Vec<Part<'p>>,
    pub choices: Vec<Option<Choice>>,
    pub called: Vec<u32>,
}

/// Of each of these parts which branch it is, if it is one.
fn choices_of(alloc: Global, parts: &[Part<'_>]) -> Result<Vec<Option<Choice>>, Memory> {
    let mut choices = Vec::new(alloc);
    // of the operands to come, the next one on top
    let mut later = Vec::new(alloc);
    for part in parts {
        choices.push(later.pop().unwrap_or(None))?;
        let form = &part.expr.form;
        for place in (0..width(form)).rev() {
            later.push(choice_at(form, place))?;
        }
    }
    Ok(choices)
}

/// The nodes that these parts call.
fn called_in(alloc: Global, parts: &[Part<'_>]) -> Result<Vec<u32>, Memory> {
    let mut called = Vec::new(alloc);
    for part in parts {
        if let Form::Call(node, _) = &part.expr.form {
            called.push(*node)?;
        }
    }
    Ok(called)
}

/// The text of a node.
pub(crate) fn text_of<'p>(
    alloc: Global,
    program: &'p Program,
    node: &'p Node,
) -> Result<Text<'p>, Memory> {
    let parts = parts_of(alloc, program, node)?;
    let choices = choices_of(alloc, &parts)?;
    let called = called_in(alloc, &parts)?;
    Ok(Text {
        parts,
        choices,
        called,
    })
}
