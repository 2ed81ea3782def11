//! Runs whose lines are the records of a table.

ghost use Rattle.std.specs.Prelude.{◌≡◌, ◌<◌, IfOk, OnErr, OnOk, length, map, option_map, string_bytes};
ghost use Rattle.std.specs.Arc.{arc_value};
ghost use Rattle.lus_bursts.specs.Syncs.{WasKept};
ghost use Rattle.lus_devices.specs.Devices.{WritesBeginning, with_text};
ghost use Rattle.lus_live_instance.specs.Lives.{IsLive};
ghost use Rattle.lus_live_instance.specs.MachineSpecs.CodeSpecs.Codes.{program_of};
ghost use Rattle.lus_sessions.specs.Sessions.{scribe_of};
ghost use Rattle.lus_live.specs.Tables.{HasHead, HasToldTable, HasToldTableSome, head_says, node_columns};

use indexmap::IndexSet;
use lus_bursts::{Syncs, Waiting};
use lus_devices::{Sink, Source};
use lus_live_instance::Instance;
use lus_live_instance::lus_machine::{NodeId, Program};
use lus_records::{RecordCalls, RecordReplies, all_columns, read_head, write_head};
use lus_sessions::{PlayError, Score, Start, Writes, drive};
use lus_values::Memory;
use std::alloc::Global;
use std::sync::Arc;

/// The columns of a node's inputs, and behind them those of its outputs.
fn node_columns(alloc: Global, program: &Arc<Program>, node: NodeId) -> Result<Vec<String>, Memory>
    requires { node.0 < length (program_of (arc_value program.now)).nodes }
    ensures { IfOk result (λ v. map string_bytes v.items ≡ node_columns (program_of (arc_value program.now)) node.0) }
{
    let mut columns = all_columns(alloc, program.source(), program.inputs(node))?;
    let mut outputs = all_columns(alloc, program.source(), program.outputs(node))?;
    columns.append(&mut outputs)?;
    Ok(columns)
}

/// Reads the first line as a head of columns of a node.
fn read_node_head<S: Source, F: Sink>(
    alloc: Global,
    program: &Arc<Program>,
    node: NodeId,
    input: &mut S,
    faults: &mut F,
) -> Result<Option<IndexSet<String>>, PlayError>
    requires { node.0 < length (program_of (arc_value program.now)).nodes }
    ensures { IfOk result (λ o. HasHead (program_of (arc_value program.now)) node.0 (S.left input.old) (S.left input.new)
        (option_map (λ h. map string_bytes h.keys) o)) }
{
    let columns = node_columns(alloc, program, node)?;
    let inputs = all_columns(alloc, program.source(), program.inputs(node))?;
    read_head(alloc, &columns, &inputs, input, faults)
}

/// Writes the head of a node's outputs, all of it or a beginning.
fn write_outputs_head<O: Sink>(
    alloc: Global,
    program: &Arc<Program>,
    node: NodeId,
    output: &mut O,
) -> Result<(), PlayError>
    requires { node.0 < length (program_of (arc_value program.now)).nodes }
    ensures whole { OnOk result (O.written output.new
        ≡ with_text (O.written output.old) (head_says (program_of (arc_value program.now)) node.0)) }
    ensures beginning { OnErr result (WritesBeginning (O.written output.old) (O.written output.new)
        (head_says (program_of (arc_value program.now)) node.0)) }
{
    let source = program.source();
    let outputs = program.outputs(node);
    write_head(alloc, source, outputs, output)
}

/// Reads the first line as a head, names of columns of the node's inputs and outputs, and writes the names of the columns of its outputs.
/// Then makes the step of each record below it, passing over cells below outputs, and tells its outputs as a record, once its entry is in
/// the log. A line that is no step enters nothing and has no record; `faults` is given its number and what is wrong. Where the first line
/// is no head, or there is none, it counts as refused, nothing more is read and nothing is written.
pub(crate) fn tell_table<J: Writes, S: Source, L: Syncs, O: Sink, F: Sink>(
    alloc: Global,
    program: &Arc<Program>,
    node: NodeId,
    start: Start,
    reactor: &mut Instance,
    scribe: &J,
    is_synced: bool,
    waiting: &Waiting,
    input: &mut S,
    log: &mut L,
    output: &mut O,
    faults: &mut F,
) -> Result<Score, PlayError>
    requires within { node.0 < length (program_of (arc_value program.now)).nodes }
    requires live { IsLive (program_of (arc_value program.now)) node.0 reactor.now.reactor }
    ensures all { IfOk result (λ score. HasToldTable (program_of (arc_value program.now)) node.0
        (scribe_of (J.starts scribe.now) (J.says scribe.now) (J.ends scribe.now)) (WasKept is_synced L L.syncs L.written) start
        (S.left input.old) (S.left input.new) reactor.old.reactor.history (L.written log.old) (L.written log.new)
        (O.written output.old) (O.written output.new) score) }
    ensures some { OnErr result (HasToldTableSome (program_of (arc_value program.now)) node.0
        (scribe_of (J.starts scribe.now) (J.says scribe.now) (J.ends scribe.now)) (WasKept is_synced L L.syncs L.written) start
        (S.left input.old) reactor.old.reactor.history (L.written log.old) (L.written log.new)
        (O.written output.old) (O.written output.new)) }
{
    let Some(head) = read_node_head(alloc, program, node, input, faults)? else {
        return Ok(Score {
            entered: 0,
            refused: 1,
        });
    };
    // (the head is one of the lines that were read ahead)
    waiting.take();
    write_outputs_head(alloc, program, node, output)?;
    let source = program.source();
    let names = program.names();
    let inputs = program.inputs(node);
    let outputs = program.outputs(node);
    let calls = RecordCalls {
        alloc,
        program: source,
        names,
        node,
        inputs,
        head,
    };
    let replies = RecordReplies {
        alloc,
        program: source,
        names,
        outputs,
    };
    drive(
        alloc, start, &calls, reactor, scribe, &replies, is_synced, waiting, input, log, output,
        faults,
    )
}
