//! Runs of a node's instance in the form that is asked for.

ghost use Rattle.std.specs.Prelude.{◌≡◌, ◌<◌, length};
ghost use Rattle.std.specs.Arc.{arc_value};
ghost use Rattle.lus_bursts.specs.Syncs.{WasKept};
ghost use Rattle.lus_cli.specs.Changes.{change};
ghost use Rattle.lus_live.specs.CommandLine.{task_seen, writes_file};
ghost use Rattle.lus_live.specs.Ends.{StaysIn, Tells, parties_of};
ghost use Rattle.lus_live_instance.specs.Lives.{IsLive};
ghost use Rattle.lus_live_instance.specs.MachineSpecs.CodeSpecs.Codes.{program_of};
ghost use Rattle.lus_live_instance.specs.MachineSpecs.Constructors.{names_of};
ghost use Rattle.lus_sessions.specs.Sessions.{journal_lines, scribe_of};

use crate::beginning::Begun;
use crate::log::Log;
use crate::tables::tell_table;
use crate::words::{Form, Task};
use lus_bursts::{Syncs, Waiting};
use lus_devices::{Sink, Source};
use lus_live_instance::lus_machine::{NodeId, Program};
use lus_sessions::{JsonCalls, JsonReplies, Nowhere, PlayError, Score, Silent, Writes, drive};
use std::alloc::Global;
use std::sync::Arc;

/// Plays the lines of the input, and tells of them as it is asked for.
pub(crate) fn run<J: Writes, S: Source, L: Log, O: Syncs, F: Sink>(
    alloc: Global,
    program: &Arc<Program>,
    node: NodeId,
    task: Task<'_>,
    scribe: &J,
    begun: Begun,
    waiting: &Waiting,
    input: &mut S,
    log: &mut L,
    output: &mut O,
    faults: &mut F,
) -> Result<Score, PlayError>
    requires within { node.0 < length (program_of (arc_value program.now)).nodes }
    requires live { IsLive (program_of (arc_value program.now)) node.0 begun.instance.reactor }
    requires scribe { scribe_of (J.starts scribe.now) (J.says scribe.now) (J.ends scribe.now)
        ≡ journal_lines (names_of (program_of (arc_value program.now))) (parties_of (task_seen task)) }
    ensures tells { Tells task.entry.form (task_seen task.entry).file (WasKept task.entry.is_synced L L.syncs L.written)
        (program_of (arc_value program.now)) node.0 (parties_of (task_seen task.entry)) begun.start (S.left input.old) (S.left input.new)
        begun.instance.reactor.history
        (change (L.written log.old) (L.written log.new) (L.failures log.old) (L.failures log.new))
        (change (O.written output.old) (O.written output.new) (O.failures output.old) (O.failures output.new)) result }
    ensures stays { StaysIn (writes_file task.entry.form (task_seen task.entry).file)
        (change (L.written log.old) (L.written log.new) (L.failures log.old) (L.failures log.new)) }
{
    let Begun {
        mut instance,
        start,
    } = begun;
    let reactor = &mut instance;
    let is_synced = task.is_synced;
    let source = program.source();
    let names = program.names();
    let calls = JsonCalls {
        alloc,
        program: source,
        names,
        node,
    };
    let replies = JsonReplies {
        program: source,
        names,
        outputs: program.outputs(node),
    };
    let mut none = Nowhere;
    match (task.form, task.journal) {
        (Form::Journal, _) => drive(
            alloc, start, &calls, reactor, scribe, &Silent, false, waiting, input, output,
            &mut none, faults,
        ),
        (Form::Json, None) => drive(
            alloc, start, &calls, reactor, &Silent, &replies, false, waiting, input, &mut none,
            output, faults,
        ),
        (Form::Json, Some(_)) => drive(
            alloc, start, &calls, reactor, scribe, &replies, is_synced, waiting, input, log,
            output, faults,
        ),
        (Form::Csv, None) => tell_table(
            alloc, program, node, start, reactor, &Silent, false, waiting, input, &mut none,
            output, faults,
        ),
        (Form::Csv, Some(_)) => tell_table(
            alloc, program, node, start, reactor, scribe, is_synced, waiting, input, log, output,
            faults,
        ),
    }
}
