//! The call that is being written at a place.

use crate::context::context_at;
use crate::outline::push_token;
use crate::places::{Spot, lines_of};
use lus_diagnostics::push_string;
use lus_occurrences::{Declared, Names, names_of};
use lus_syntax::{Span, Token};
use std::alloc::{AllocError, Global};

/// The names of the inputs of a node.
fn inputs_of(alloc: Global, names: &Names<'_>, node: usize) -> Result<Vec<Span>, AllocError> {
    let mut inputs = Vec::new(alloc);
    for declaration in &names.declarations {
        if declaration.declared == Declared::Input
            && declaration.owner == Some(node)
            && let Some(span) = names.span_of(declaration.token)
        {
            inputs.push(span)?;
        }
    }
    Ok(inputs)
}

/// Appends a head behind the name of its node, and to `parameters` the ranges of its inputs' names in the whole, as JSON.
fn push_head(
    label: &mut String,
    parameters: &mut String,
    source: &str,
    head: &[Token<'_>],
    inputs: &[Span],
) -> Result<(), AllocError> {
    let mut before = None;
    let mut next = 0usize;
    for token in head {
        push_token(label, source, before, token.span)?;
        before = Some(token.span);
        if let Some(input) = inputs.get(next)
            && input.start.byte == token.span.start.byte
        {
            let comma = if next > 0 { "," } else { "" };
            let to = label.len();
            let from = to.saturating_sub(token.span.length);
            write!(parameters, "{comma}{{\"label\":[{from},{to}]}}")?;
            next = next.saturating_add(1);
        }
    }
    Ok(())
}

/// The head of a node with the ranges of its inputs' names in it, as JSON.
fn signature(
    alloc: Global,
    source: &str,
    names: &Names<'_>,
    node: usize,
) -> Result<String, AllocError> {
    let inputs = inputs_of(alloc, names, node)?;
    let mut label = String::from_str(alloc, names.name(node))?;
    let mut parameters = String::new(alloc);
    let (first, end) = names.told(node);
    let head = names.tokens.get(first..end).unwrap_or(&[]);
    push_head(&mut label, &mut parameters, source, head, &inputs)?;
    let mut text = String::from_str(alloc, "{\"label\":")?;
    push_string(alloc, &mut text, label.as_str())?;
    write!(text, ",\"parameters\":[{parameters}]}}")?;
    Ok(text)
}

/// The head of the node whose call is being written at a spot, and which of its inputs (`SignatureHelp`); null where there is none.
pub fn signature_help(alloc: Global, source: &str, at: Spot) -> Result<String, AllocError> {
    let byte = lines_of(alloc, source)?.byte_at(at);
    let names = names_of(alloc, source)?;
    let before = names
        .tokens
        .partition_point(|token| token.span.start.byte < byte);
    let (_, call) = context_at(alloc, &names, before)?;
    let Some(call) = call else {
        return String::from_str(alloc, "null");
    };
    let made = signature(alloc, source, &names, call.node)?;
    let active = call.commas;
    format!(in alloc;
        "{{\"signatures\":[{made}],\"activeSignature\":0,\"activeParameter\":{active}}}"
    )
}
