//! Lines that are no calls of a node.

ghost use Rattle.std.specs.Prelude.{IfOk, string_bytes};
ghost use Rattle.lus_lines.specs.Lines.{IsPlain};
ghost use Rattle.lus_culprits.specs.Sentences.{IsBasic, IsSentence};

use crate::items::{Scope, push_json};
use crate::json::{fault_at, push_unexpected};
use crate::objects::{push_list, push_object};
use crate::sentences::sentence;
use crate::types::inputs_of;
use lus_program::{NodeId, Program, Variable};
use lus_syntax::place_behind;
use lus_values::{Memory, Names};
use serde_json::{Error, Value};
use std::alloc::Global;

/// Why a value of JSON is no call, by how it begins.
pub fn general_sentence(line: &[u8]) -> &'static str
    ensures plain { IsPlain result.now }
    ensures basic { IsBasic result.now }
{
    for byte in line {
        match *byte {
            b' ' | b'\t' | b'\r' => (),
            b'[' =>
                return "an input is a whole number in range, true, false, null, the name of a constructor, or an object of fields",
            b'{' =>
                return "a call has one of inputs (an object by their names), step, burst, reset, save and restore",
            _ => return "a call is a list of inputs or an object",
        }
    }
    "a call is a list of inputs or an object"
}

/// Appends what is wrong with bytes that are no JSON, and the column of it.
fn push_no_json(
    text: &mut String,
    alloc: Global,
    line: &[u8],
    error: &Error,
) -> Result<(), Memory> {
    text.push_str("it is no value of JSON")?;
    if let Some(offset) = fault_at(alloc, line, error.line(), error.column()) {
        text.push_str(": ")?;
        push_unexpected(text, alloc, &line[..offset], &line[offset..])?;
        let column = place_behind(&line[..offset]).column;
        write!(text, " at column {column}")?;
    }
    Ok(())
}

/// Appends what is wrong with a value of JSON that is no call.
fn push_value(text: &mut String, scope: Scope<'_>, value: &Value) -> Result<(), Memory> {
    match value {
        Value::Array(items) => push_list(text, scope, items),
        Value::Object(members) => push_object(text, scope, value, members),
        _ => {
            text.push_str("a call is a list of inputs or an object, and ")?;
            push_json(text, scope.alloc, value)?;
            text.push_str(" is given")?;
            Ok(())
        }
    }
}

/// Appends what is wrong with a line that is no call.
fn push_line(text: &mut String, scope: Scope<'_>, line: &[u8]) -> Result<(), Memory> {
    match Value::from_slice(scope.alloc, line) {
        Ok(value) => push_value(text, scope, &value),
        Err(error) if error.is_memory() => Err(Memory),
        Err(error) => push_no_json(text, scope.alloc, line, &error),
    }
}

/// What is wrong with a line that is no call of a node: the first thing that is.
pub fn explain_call(
    alloc: Global,
    program: &Program,
    names: &Names,
    node: NodeId,
    line: &[u8],
) -> Result<String, Memory>
    ensures { IfOk result (λ t. IsSentence (string_bytes t)) }
{
    let inputs: &[Variable] = match program.nodes.get(node.0 as usize) {
        Some(node) => inputs_of(node),
        None => &[],
    };
    let scope = Scope {
        alloc,
        program,
        names,
        inputs,
    };
    let mut text = String::new(alloc);
    push_line(&mut text, scope, line)?;
    sentence(alloc, &text, general_sentence(line))
}
