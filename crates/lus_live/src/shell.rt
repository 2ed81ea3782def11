//! The command line over a folder and an input.

ghost use Rattle.std.specs.Prelude.{◌≡◌, IfErr, Some, map, string_bytes};
ghost use Rattle.lus_bursts.specs.Syncs.{WasKept};
ghost use Rattle.lus_cli.specs.Changes.{change};
ghost use Rattle.lus_cli.specs.Ends.{AskedEnds, ReadFails};
ghost use Rattle.lus_cli.specs.Faults.{IsQuiet};
ghost use Rattle.lus_live.specs.CommandLine.{asked, task_seen};
ghost use Rattle.lus_live.specs.Ends.{Ends, LogStays, Opens, TaskEnds, play_fault};

use crate::beginning::begin;
use crate::limits::tell_above;
use crate::log::Log;
use crate::runs::run;
use crate::words::{Task, read_words};
use lus_bursts::{Syncs, Waiting};
use lus_cli::lus_host::ScriptRefusal;
use lus_cli::{Fault, lines_status, read_program, tell, tell_nodes};
use lus_devices::{Folder, Sink, Source};
use lus_sessions::{JournalLines, PlayError, Score, callers};
use std::alloc::Global;
use std::sync::Arc;

/// Plays the lines of the input on the node. An error is of a fault before the first line, or of the play itself.
fn play_on<D: Folder, S: Source, L: Log, O: Syncs, F: Sink>(
    alloc: Global,
    folder: &D,
    task: Task<'_>,
    waiting: &Waiting,
    input: &mut S,
    log: &mut L,
    output: &mut O,
    faults: &mut F,
) -> Result<Result<Score, PlayError>, Fault>
    ensures ends { TaskEnds (ReadFails D.File D.File.left D.File.failures) (D.known folder.now) (Opens L L.opens log.old)
        (λ s. WasKept s L L.syncs L.written) (S.left input.old) (S.left input.new)
        (change (L.written log.old) (L.written log.new) (L.failures log.old) (L.failures log.new)) (task_seen task.entry) result
        (change (O.written output.old) (O.written output.new) (O.failures output.old) (O.failures output.new)) }
    ensures stays { LogStays (Some (task_seen task.entry))
        (change (L.written log.old) (L.written log.new) (L.failures log.old) (L.failures log.new)) }
    ensures quiet { IfErr result (λ f. IsQuiet f
        (change (F.written faults.old) (F.written faults.new) (F.failures faults.old) (F.failures faults.new))) }
{
    let program = read_program(alloc, folder, task.program)?;
    let Some(node) = program.node(task.node) else {
        tell_nodes(&program, faults);
        return Err(Fault::Scripts(ScriptRefusal::Unknown));
    };
    let cost = program.cost(node);
    if !task.limits.are_kept(cost) {
        tell_above(cost, task.limits, faults);
        return Err(Fault::Scripts(ScriptRefusal::Limit));
    }
    let Ok(program) = Arc::new(alloc, program) else {
        return Err(Fault::Memory);
    };
    let Ok(callers) = callers(alloc, task.caller) else {
        return Err(Fault::Memory);
    };
    let begun = begin(alloc, folder, &program, node, task, log, faults)?;
    let scribe = JournalLines {
        names: program.names(),
        node: task.node,
        callers: &callers,
    };
    Ok(run(
        alloc, &program, node, task, &scribe, begun, waiting, input, log, output, faults,
    ))
}

fn perform<D: Folder, S: Source, L: Log, O: Syncs, F: Sink>(
    alloc: Global,
    folder: &D,
    words: &[String],
    waiting: &Waiting,
    input: &mut S,
    log: &mut L,
    output: &mut O,
    faults: &mut F,
) -> Result<Result<Score, PlayError>, Fault>
    ensures ends { AskedEnds (TaskEnds (ReadFails D.File D.File.left D.File.failures) (D.known folder.now) (Opens L L.opens log.old)
        (λ s. WasKept s L L.syncs L.written) (S.left input.old) (S.left input.new)
        (change (L.written log.old) (L.written log.new) (L.failures log.old) (L.failures log.new))) (asked (map string_bytes words.now))
        result (change (O.written output.old) (O.written output.new) (O.failures output.old) (O.failures output.new)) }
    ensures stays { LogStays (asked (map string_bytes words.now))
        (change (L.written log.old) (L.written log.new) (L.failures log.old) (L.failures log.new)) }
    ensures quiet { IfErr result (λ f. IsQuiet f
        (change (F.written faults.old) (F.written faults.new) (F.failures faults.old) (F.failures faults.new))) }
{
    let task = read_words(alloc, words)?;
    play_on(alloc, folder, task, waiting, input, log, output, faults)
}

fn fault_of(error: PlayError) -> Fault
    ensures { result ≡ play_fault error }
{
    match error {
        PlayError::Read => Fault::File,
        PlayError::Write => Fault::Output,
        PlayError::Memory => Fault::Memory,
        PlayError::Full => Fault::Scripts(ScriptRefusal::Limit),
    }
}

/// Makes the call of each line of the input on the node that the words name, and writes the journal: each entry before the next line
/// is read. Its entries are of the caller that is named, or of `user`. A journal among the words is read and replayed first, and written
/// on. In place of a journal's lines `--json` has each reply written as an object of JSON, and `--csv` the outputs as records, where the
/// first line names columns and each other line is the record of a step. Then a journal among the words is itself gone on in by `log`: a
/// reply is begun only once the line of its entry is whole there, and with `--sync` once the log was synced with it, once for all calls
/// whose lines are `waiting`, that is, were read ahead. Gives the status of the process: 0 where all lines were read and each was a call, 2
/// where one was none, which `faults` is given with its number, else that of the fault.
pub fn command<D: Folder, S: Source, L: Log, O: Syncs, F: Sink>(
    alloc: Global,
    folder: &D,
    words: &[String],
    waiting: &Waiting,
    input: &mut S,
    log: &mut L,
    output: &mut O,
    faults: &mut F,
) -> u8
    ensures ends { Ends (ReadFails D.File D.File.left D.File.failures) (D.known folder.now) (Opens L L.opens log.old)
        (λ s. WasKept s L L.syncs L.written) (asked (map string_bytes words.now)) (S.left input.old) (S.left input.new)
        (change (L.written log.old) (L.written log.new) (L.failures log.old) (L.failures log.new))
        (change (O.written output.old) (O.written output.new) (O.failures output.old) (O.failures output.new))
        (change (F.written faults.old) (F.written faults.new) (F.failures faults.old) (F.failures faults.new)) result }
    ensures stays { LogStays (asked (map string_bytes words.now))
        (change (L.written log.old) (L.written log.new) (L.failures log.old) (L.failures log.new)) }
{
    match perform(alloc, folder, words, waiting, input, log, output, faults) {
        Ok(Ok(score)) => lines_status(score.refused),
        Ok(Err(error)) => tell(faults, fault_of(error)),
        Err(fault) => tell(faults, fault),
    }
}
