//! Hosting many instances whose answers are objects of JSON.

ghost use Rattle.std.specs.Prelude.{◌≡◌, ◌++◌, ◌<◌, [], None, IfOk, OnErr, OnOk, codes, length, map, string_bytes};
ghost use Rattle.std.specs.Arc.{arc_value};
ghost use Rattle.lus_program.specs.View.{program_seen, variable_of};
ghost use Rattle.lus_cli.specs.CodeSpecs.Codes.{program_of};
ghost use Rattle.lus_hosting.specs.Spellings.{no_spelling};
ghost use Rattle.lus_hosting.specs.Turns.{HasHosted, HasHostedSome, everything};
ghost use Rattle.lus_many.specs.Objects.{denial_json, json_spelling, members_of, names_json, node_spelling, quoted};

use lus_devices::{Sink, Source};
use lus_hosting::lus_live_instance::lus_machine::{NodeId, Program};
use lus_hosting::lus_sessions::Score;
use lus_hosting::{HostError, Tells, host_many};
use lus_program::{Program as PlainProgram, Variable};
use lus_replies::push_reply;
use lus_requests::Entry;
use lus_values::{Memory, Names};
use serde_json::Value;
use std::alloc::{AllocError, Global};
use std::collections::hash_map::RandomState;
use std::sync::Arc;

/// A text as a string of JSON.
fn quoted(alloc: Global, text: &str) -> Result<String, AllocError>
    ensures { IfOk result (λ string. string_bytes string ≡ quoted text.now) }
{
    Value::try_from_str(alloc, text)?.to_string(alloc)
}

/// What an object has behind its first brace.
fn members_of(object: &str) -> &str
    ensures { result.now ≡ members_of object.now }
{
    match object.strip_prefix("{") {
        Some(members) => members,
        None => object,
    }
}

/// Begins the object of the nth entry of an instance: other members follow.
fn push_names(
    alloc: Global,
    text: &mut String,
    instance: &str,
    caller: &str,
    number: u64,
) -> Result<(), AllocError>
    ensures { OnOk result (string_bytes text.new ≡ string_bytes text.old ++ names_json instance.now caller.now number) }
{
    let instance = quoted(alloc, instance)?;
    let caller = quoted(alloc, caller)?;
    write!(
        text,
        "{{\"instance\":{instance},\"number\":{number},\"caller\":{caller},"
    )
}

/// Appends what an object has behind its first brace, and ends the line.
fn push_members(text: &mut String, object: &str) -> Result<(), AllocError>
    ensures { OnOk result (string_bytes text.new ≡ string_bytes text.old ++ (members_of object.now ++ codes "\n")) }
{
    text.push_str(members_of(object))?;
    text.push_str("\n")
}

/// Appends the object of a line that is no call.
fn push_denial(
    alloc: Global,
    text: &mut String,
    instance: &str,
    caller: &str,
    reason: &str,
) -> Result<(), AllocError>
    ensures { OnOk result (string_bytes text.new ≡ string_bytes text.old ++ denial_json instance.now caller.now reason.now) }
{
    let instance = quoted(alloc, instance)?;
    let caller = quoted(alloc, caller)?;
    let reason = quoted(alloc, reason)?;
    write!(
        text,
        "{{\"instance\":{instance},\"caller\":{caller},\"error\":{reason}}}\n"
    )
}

/// Tells it as objects of JSON, each on a line of its own.
#[derive(Drop)]
pub(crate) struct JsonLines<'p> {
    pub(crate) alloc: Global,
    pub(crate) program: &'p PlainProgram,
    pub(crate) names: &'p Names,
    pub(crate) outputs: &'p [Variable],
}

impl Tells for JsonLines<'_> {
    ghost spelling = { λ t. json_spelling (program_seen t.program.now) t.names.now (map variable_of t.outputs.now) };

    fn tell(
        &self,
        text: &mut String,
        instance: &str,
        caller: &str,
        number: u64,
        entry: &Entry,
    ) -> Result<(), Memory> {
        push_names(self.alloc, text, instance, caller, number)?;
        let mut reply = String::new(self.alloc);
        push_reply(
            &mut reply,
            self.program,
            self.names,
            self.outputs,
            &entry.request,
            &entry.reply,
        )?;
        push_members(text, reply.as_str())?;
        Ok(())
    }

    fn deny(
        &self,
        text: &mut String,
        instance: &str,
        caller: &str,
        reason: &str,
    ) -> Result<(), Memory> {
        push_denial(self.alloc, text, instance, caller, reason)?;
        Ok(())
    }
}

/// Tells what becomes of lines of instances of a node as objects of JSON.
pub(crate) fn json_lines<'p>(
    alloc: Global,
    program: &'p Arc<Program>,
    node: NodeId,
) -> JsonLines<'p>
    requires { node.0 < length (program_of (arc_value program.now)).nodes }
    ensures { json_spelling (program_seen result.program.now) result.names.now (map variable_of result.outputs.now)
        ≡ node_spelling (program_of (arc_value program.now)) node.0 }
{
    let source = program.source();
    let names = program.names();
    let outputs = program.outputs(node);
    JsonLines {
        alloc,
        program: source,
        names,
        outputs,
    }
}

/// Hosts instances whose answers are objects of JSON: of an entry the names of the instance and the caller, its number and the members of
/// its reply, and of a line that is no call the names and why. Its input may have entries as a log has them, and none of these objects.
pub(crate) fn host_json<S: Source, O: Sink>(
    alloc: Global,
    program: &Arc<Program>,
    node: NodeId,
    keys: RandomState,
    input: &mut S,
    output: &mut O,
    line: &mut Vec<u8>,
    right: &mut String,
) -> Result<Score, HostError>
    requires { node.0 < length (program_of (arc_value program.now)).nodes }
    ensures all { IfOk result (λ score. HasHosted everything (program_of (arc_value program.now)) node.0 no_spelling
        (node_spelling (program_of (arc_value program.now)) node.0) []
        (S.left input.old) (S.left input.new) None None (O.written output.old) (O.written output.new) score) }
    ensures begun { OnErr result (HasHostedSome everything (program_of (arc_value program.now)) node.0 no_spelling
        (node_spelling (program_of (arc_value program.now)) node.0) []
        (S.left input.old) None None (O.written output.old) (O.written output.new)) }
{
    let teller = json_lines(alloc, program, node);
    host_many(
        alloc, program, node, keys, &teller, input, output, line, right,
    )
}
