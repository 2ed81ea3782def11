//! `lus_machine`, by `lus_host`.

ghost use Rattle.std.specs.Prelude.{◌<◌, length};

use lus_cli::lus_host::lus_machine::{
    CallError, Entry, Formal, Machine, Program, Reply, Request, Test, Why, compile,
};
use lus_cli::lus_host::{Memory, Row, Rows};
use lus_syntax::{NodeId, Refusal};
use lus_values::Names;
use std::alloc::Global;
use std::sync::Arc;

/// The program of a text.
pub fn compile_text(alloc: Global, text: &str) -> Result<Program, Refusal> {
    compile(alloc, text)
}

/// How many inputs and outputs the node of a name has, and how many nodes there are.
pub fn formals<'a>(program: &'a Program, name: &str) -> Option<(&'a [Formal], &'a [Formal], u32)> {
    let node: Option<NodeId> = program.node(name);
    let node = node?;
    if !program.has(node) {
        return None;
    }
    let _names: &Names = program.names();
    let inputs: &[Formal] = program.inputs(node);
    let outputs: &[Formal] = program.outputs(node);
    let nodes: u32 = program.nodes();
    Some((inputs, outputs, nodes))
}

/// Each request that there is.
pub fn requests(alloc: Global, inputs: Row) -> Result<[Request; 5], Memory> {
    let again: Row = inputs.copy(alloc)?;
    let mut rows: Vec<Row> = Vec::new(alloc);
    rows.push(again)?;
    Ok([
        Request::Step(inputs),
        Request::Reset,
        Request::Save(0),
        Request::Restore(0),
        Request::Burst(Rows::new(rows)),
    ])
}

/// The number of a reply's kind.
pub fn kind_of_reply(reply: &Reply) -> u32 {
    match reply {
        Reply::Outputs(outputs) => {
            let _: &Row = outputs;
            0
        }
        Reply::Rows(rows) => {
            let _: &Rows = rows;
            1
        }
        Reply::Done => 2,
        Reply::Refused(Why::Shape) => 3,
        Reply::Refused(Why::Presence) => 4,
        Reply::Refused(Why::Fault) => 5,
        Reply::Refused(Why::NoSave) => 6,
    }
}

/// A machine, where the program has the node.
pub fn new_machine(
    alloc: Global,
    program: Arc<Program>,
    node: NodeId,
) -> Option<Result<Machine, Memory>> {
    if program.has(node) {
        Some(Machine::new(alloc, program, node))
    } else {
        None
    }
}

/// The history of a machine after one call, as it shows it and as it hands it out.
pub fn call_machine(
    mut machine: Machine,
    caller: u32,
    request: &Request,
) -> Result<(Reply, usize, Vec<Entry>), CallError> {
    let reply: Reply = machine.call(caller, request)?;
    let history: &[Entry] = machine.history();
    let entries = history.len();
    Ok((reply, entries, machine.into_history()))
}

/// The test of a formal, if it has one.
pub fn formal_test(formal: &Formal) -> Option<Test> {
    formal.test
}
