//! Reading one request to a node.

ghost use Rattle.std.specs.Prelude.{◌≡◌, ◌⊎◌, IfErr, IfOk, IsUtf8, Err, Some, None, map, option_map, slice_get, take};
ghost use Rattle.std.specs.List.{count_by};
ghost use Rattle.serde_json.specs.Read.{read};
ghost use Rattle.serde_json.specs.View.{view};
ghost use Rattle.lus_values.specs.View.{entry_of};
ghost use Rattle.lus_program.specs.View.{node_of, program_seen, variable_of};
ghost use Rattle.lus_scripts.specs.Forms.{each};
ghost use Rattle.lus_scripts.specs.Requests.{asked_alone, inputs_in, inputs_of, is_given, named_item, named_row, names_inputs, request_alone, request_in};
ghost use Rattle.lus_scripts.specs.View.{ask_seen};

use crate::form::{Ask, as_list, member_count, read_ask};
use crate::reading::{Scope, parse, read_request as read_asked};
use crate::refusal::ScriptRefusal;
use crate::value::read_item;
use indexmap::IndexSet;
use lus_program::{Node, NodeId, Program, Variable};
use lus_requests::Request;
use lus_values::{Names, Row, Value as Item};
use serde_json::Value;
use std::alloc::Global;

fn asked_alone(request: &Value) -> Option<Ask<'_>>
    ensures { option_map ask_seen result ≡ asked_alone (view request.now) }
{
    if let Some(items) = as_list(request) {
        return Some(Ask::Step(items));
    }
    if member_count(request) != 1 {
        return None;
    }
    read_ask(request)
}

fn inputs_in(request: &Value) -> Option<&Value>
    ensures { option_map (λ v. view v.now) result ≡ inputs_in (view request.now) }
{
    if member_count(request) != 1 {
        return None;
    }
    request.get("inputs")
}

/// The inputs of a node, in declared order.
fn first_variables(node: &Node) -> &[Variable]
    ensures { map variable_of result.now ≡ take node.now.inputs (map variable_of node.now.variables.items) }
{
    let inputs = (node.inputs as usize).min(node.variables.len());
    &node.variables[..inputs]
}

fn inputs_of(node: Option<&Node>) -> &[Variable]
    ensures { map variable_of result.now ≡ inputs_of (option_map (λ f. node_of f.now) node.entry) }
{
    match node {
        Some(node) => first_variables(node),
        None => &[],
    }
}

/// Whether an object has a member of this input's name.
fn is_given(given: &Value, input: &Variable) -> bool
    ensures { result ≡ is_given (view given.now) (variable_of input.now) }
{
    given.get(input.name.as_str()).is_some()
}

/// How many of the inputs an object has a member for.
fn given_count(inputs: &[Variable], given: &Value) -> usize
    ensures { result ≡ count_by (is_given (view given.now)) (map variable_of inputs.now) }
{
    inputs
        .iter()
        .filter(|input| is_given(given, *input))
        .count()
}

/// Whether each key of an object is the name of an input.
fn names_inputs(inputs: &[Variable], given: &Value) -> bool
    ensures { result ≡ names_inputs (map variable_of inputs.now) (view given.now) }
{
    given.as_object().is_some() && member_count(given) == given_count(inputs, given)
}

/// The item that an object gives to an input.
fn named_item(
    alloc: Global,
    program: &Program,
    names: &Names,
    given: &Value,
    input: &Variable,
) -> Result<Option<Item>, ScriptRefusal>
    ensures ok { IfOk result (λ v. named_item (program_seen program.now) names.now (view given.now) (variable_of input.now) ≡ Some (entry_of v)) }
    ensures form { result ≡ Err ScriptRefusal.Form
        → named_item (program_seen program.now) names.now (view given.now) (variable_of input.now) ≡ None }
    ensures errors { IfErr result (λ e. (e ≡ ScriptRefusal.Form) ⊎ (e ≡ ScriptRefusal.Memory)) }
{
    match given.get(input.name.as_str()) {
        Some(item) => read_item(alloc, program, names, Some(input.kind), item),
        None => Ok(None),
    }
}

fn named_items(
    alloc: Global,
    program: &Program,
    names: &Names,
    given: &Value,
    inputs: &[Variable],
) -> Result<Vec<Option<Item>>, ScriptRefusal>
    ensures ok { IfOk result (λ v. each (named_item (program_seen program.now) names.now (view given.now)) (map variable_of inputs.now)
        ≡ Some (map entry_of v.items)) }
    ensures form { result ≡ Err ScriptRefusal.Form
        → each (named_item (program_seen program.now) names.now (view given.now)) (map variable_of inputs.now) ≡ None }
    ensures errors { IfErr result (λ e. (e ≡ ScriptRefusal.Form) ⊎ (e ≡ ScriptRefusal.Memory)) }
{
    let mut items = Vec::new(alloc);
    for input in inputs {
        items.push(named_item(alloc, program, names, given, input)?)?;
    }
    Ok(items)
}

/// The inputs that an object gives by their names.
fn named_row(
    alloc: Global,
    program: &Program,
    names: &Names,
    inputs: &[Variable],
    given: &Value,
) -> Result<Row, ScriptRefusal>
    ensures ok { IfOk result (λ row. named_row (program_seen program.now) names.now (map variable_of inputs.now) (view given.now) ≡ Some row) }
    ensures form { result ≡ Err ScriptRefusal.Form
        → named_row (program_seen program.now) names.now (map variable_of inputs.now) (view given.now) ≡ None }
    ensures errors { IfErr result (λ e. (e ≡ ScriptRefusal.Form) ⊎ (e ≡ ScriptRefusal.Memory)) }
{
    if !names_inputs(inputs, given) {
        return Err(ScriptRefusal::Form);
    }
    let items = named_items(alloc, program, names, given, inputs)?;
    Ok(Row::new(items))
}

fn read_alone(
    alloc: Global,
    program: &Program,
    names: &Names,
    node: Option<&Node>,
    json: &Value,
) -> Result<Request, ScriptRefusal>
    ensures ok { IfOk result (λ r.
        request_alone (program_seen program.now) names.now (option_map (λ f. node_of f.now) node.entry) (view json.now) ≡ Some r) }
    ensures refused { IfErr result (λ e. (e ≡ ScriptRefusal.Memory)
        ⊎ (request_alone (program_seen program.now) names.now (option_map (λ f. node_of f.now) node.entry) (view json.now) ≡ None)) }
{
    if let Some(given) = inputs_in(json) {
        let row = named_row(alloc, program, names, inputs_of(node), given)?;
        return Ok(Request::Step(row));
    }
    let ask = asked_alone(json).ok_or(ScriptRefusal::Form)?;
    let table = IndexSet::new(alloc);
    let scope = Scope {
        program,
        names,
        table: &table,
        instances: &[],
    };
    read_asked(alloc, scope, node, ask)
}

fn node_at(program: &Program, node: NodeId) -> Option<&Node>
    ensures { option_map (λ f. node_of f.now) result ≡ slice_get (program_seen program.now).nodes node.0 }
{
    program.nodes.get(node.0 as usize)
}

/// Reads a request to a node of a program with these names of constructors from a text of JSON: a list has the inputs of a
/// step, and an object of one member says what a call of scripts says, or names the inputs of a step. A refusal is `Json` or
/// `Form`.
pub fn read_request(
    alloc: Global,
    program: &Program,
    names: &Names,
    node: NodeId,
    text: &[u8],
) -> Result<Request, ScriptRefusal>
    ensures ok { IfOk result (λ r. IsUtf8 text.now
        × (request_in (program_seen program.now) names.now (slice_get (program_seen program.now).nodes node.0) text.now ≡ Some r)) }
    ensures refused { IfErr result (λ e. (e ≡ ScriptRefusal.Memory) ⊎ (IsUtf8 text.now
        → request_in (program_seen program.now) names.now (slice_get (program_seen program.now).nodes node.0) text.now ≡ None)) }
{
    match parse(alloc, text) {
        Ok(json) => read_alone(alloc, program, names, node_at(program, node), &json),
        Err(refusal) => Err(refusal),
    }
}
