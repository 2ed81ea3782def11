//! The command line over a folder and an input.

ghost use Rattle.std.specs.Prelude.{◌≡◌, ◌<◌, [], None, IfErr, IfOk, List, OnErr, OnOk, Some, length, map, option_map, string_bytes, true};
ghost use Rattle.std.specs.Arc.{arc_value};
ghost use Rattle.lus_bursts.specs.Syncs.{IsSafe};
ghost use Rattle.lus_cli.specs.Changes.{IsUntouched, change};
ghost use Rattle.lus_cli.specs.CodeSpecs.Codes.{program_of};
ghost use Rattle.lus_cli.specs.Ends.{AskedEnds, ReadFails};
ghost use Rattle.lus_cli.specs.Faults.{IsQuiet};
ghost use Rattle.lus_hosting.specs.LiveSpecs.MachineSpecs.Constructors.{names_of};
ghost use Rattle.lus_hosting.specs.Hosts.{Keeps};
ghost use Rattle.lus_hosting.specs.Logs.{Logged};
ghost use Rattle.lus_hosting.specs.Spellings.{log_spelling, no_spelling};
ghost use Rattle.lus_hosting.specs.Turns.{AreSafe, HasHosted, HasHostedSome, StopsBy, calls, everything};
ghost use Rattle.lus_live.specs.Ends.{IsRecoveryFault, recovery_fault};
ghost use Rattle.lus_many.specs.CommandLine.{asked, session_seen, task_seen};
ghost use Rattle.lus_many.specs.Ends.{CutsTail, Ends, GoesOn, IsReadied, IsRecovered, IsSessionFault, LogStays, TaskEnds, host_fault, spelling_of};

use crate::notes::{Wrong, tell_cut, tell_no_line, tell_right, tell_wrong};
use crate::objects::{host_json, json_lines};
use crate::words::{Session, Task, read_words};
use lus_cli::lus_host::ScriptRefusal;
use lus_cli::{Fault, lines_status, read_program, tell, tell_nodes};
use lus_devices::{Folder, Sink, Source};
use lus_hosting::lus_bursts::{Syncs, Waiting};
use lus_hosting::lus_live_instance::lus_machine::{NodeId, Program};
use lus_hosting::lus_sessions::{RecoveryError, Score};
use lus_hosting::{HostError, LogLines, Recovered, host_behind, host_log, recover_log};
use lus_lines::Buffered;
use lus_live::{Log, tell_above};
use std::alloc::Global;
use std::collections::hash_map::RandomState;
use std::sync::Arc;

/// Hosts instances of a node. An error is of a fault before the first line, or of the host itself.
fn perform<D: Folder, S: Source, L: Log, O: Sink, F: Sink>(
    alloc: Global,
    folder: &D,
    words: &[String],
    keys: RandomState,
    waiting: &Waiting,
    input: &mut S,
    log: &mut L,
    output: &mut O,
    wrong: &mut Wrong,
    faults: &mut F,
) -> Result<Result<Score, HostError>, Fault>
    ensures ends { AskedEnds (TaskEnds (ReadFails D.File D.File.left D.File.failures) (D.known folder.now) (IsReadied L L.opens L.cuts log.old) (IsSafe L L.syncs L.written)
        (S.left input.old) (S.left input.new)
        (change (L.written log.old) (L.written log.new) (L.failures log.old) (L.failures log.new))) (asked (map string_bytes words.now)) result
        (change (O.written output.old) (O.written output.new) (O.failures output.old) (O.failures output.new)) }
    ensures stays { LogStays (asked (map string_bytes words.now))
        (change (L.written log.old) (L.written log.new) (L.failures log.old) (L.failures log.new)) }
    ensures quiet { IfErr result (λ f. IsQuiet f
        (change (F.written faults.old) (F.written faults.new) (F.failures faults.old) (F.failures faults.new))) }
{
    let task = read_words(alloc, words)?;
    host_on(
        alloc, folder, task, keys, waiting, input, log, output, wrong, faults,
    )
}

/// Hosts instances of the node that a task names.
fn host_on<D: Folder, S: Source, L: Log, O: Sink, F: Sink>(
    alloc: Global,
    folder: &D,
    task: Task<'_>,
    keys: RandomState,
    waiting: &Waiting,
    input: &mut S,
    log: &mut L,
    output: &mut O,
    wrong: &mut Wrong,
    faults: &mut F,
) -> Result<Result<Score, HostError>, Fault>
    ensures ends { TaskEnds (ReadFails D.File D.File.left D.File.failures) (D.known folder.now) (IsReadied L L.opens L.cuts log.old) (IsSafe L L.syncs L.written)
        (S.left input.old) (S.left input.new)
        (change (L.written log.old) (L.written log.new) (L.failures log.old) (L.failures log.new)) (task_seen task.entry) result
        (change (O.written output.old) (O.written output.new) (O.failures output.old) (O.failures output.new)) }
    ensures stays { LogStays (Some (task_seen task.entry))
        (change (L.written log.old) (L.written log.new) (L.failures log.old) (L.failures log.new)) }
    ensures quiet { IfErr result (λ f. IsQuiet f
        (change (F.written faults.old) (F.written faults.new) (F.failures faults.old) (F.failures faults.new))) }
{
    let program = read_program(alloc, folder, task.program)?;
    let Some(node) = program.node(task.node) else {
        tell_nodes(&program, faults);
        return Err(Fault::Scripts(ScriptRefusal::Unknown));
    };
    let cost = program.cost(node);
    if !task.limits.are_kept(cost) {
        tell_above(cost, task.limits, faults);
        return Err(Fault::Scripts(ScriptRefusal::Limit));
    }
    let Ok(program) = Arc::new(alloc, program) else {
        return Err(Fault::Memory);
    };
    match task.session {
        None => Ok(host_in(
            alloc,
            &program,
            node,
            task.is_json,
            keys,
            input,
            output,
            wrong,
        )),
        Some(session) => go_on(
            alloc,
            folder,
            &program,
            node,
            task.is_json,
            session,
            keys,
            waiting,
            input,
            log,
            output,
            faults,
        ),
    }
}

/// Hosts instances, of whose lines it is told in the form that is asked for.
fn host_in<S: Source, O: Sink>(
    alloc: Global,
    program: &Arc<Program>,
    node: NodeId,
    is_json: bool,
    keys: RandomState,
    input: &mut S,
    output: &mut O,
    wrong: &mut Wrong,
) -> Result<Score, HostError>
    requires { node.0 < length (program_of (arc_value program.now)).nodes }
    ensures all { IfOk result (λ score. HasHosted everything (program_of (arc_value program.now)) node.0 no_spelling
        (spelling_of is_json (program_of (arc_value program.now)) node.0) []
        (S.left input.old) (S.left input.new) None None (O.written output.old) (O.written output.new) score) }
    ensures begun { OnErr result (HasHostedSome everything (program_of (arc_value program.now)) node.0 no_spelling
        (spelling_of is_json (program_of (arc_value program.now)) node.0) []
        (S.left input.old) None None (O.written output.old) (O.written output.new)) }
{
    let line = &mut wrong.line;
    let right = &mut wrong.right;
    if is_json {
        host_json(alloc, program, node, keys, input, output, line, right)
    } else {
        host_log(alloc, program, node, keys, input, output, line, right)
    }
}

/// Why a log isn't gone on from. The line that isn't right is shown, a wrong reply beside the right one.
fn refuse<F: Sink>(alloc: Global, error: RecoveryError, wrong: &Wrong, faults: &mut F) -> Fault
    ensures fault { result ≡ recovery_fault error }
    ensures quiet { IsQuiet result (change (F.written faults.old) (F.written faults.new) (F.failures faults.old) (F.failures faults.new)) }
{
    match error {
        RecoveryError::Line(number) => {
            tell_no_line(alloc, wrong, faults);
            Fault::Journal(number)
        }
        RecoveryError::Wrong(number) => {
            tell_right(alloc, wrong, faults);
            Fault::Journal(number)
        }
        RecoveryError::Read => Fault::File,
        RecoveryError::Memory => Fault::Memory,
    }
}

/// Reads a log and replays it.
fn recover_file<D: Folder, F: Sink>(
    alloc: Global,
    folder: &D,
    program: &Arc<Program>,
    node: NodeId,
    keys: RandomState,
    log: &str,
    faults: &mut F,
) -> Result<Recovered, Fault>
    requires { node.0 < length (program_of (arc_value program.now)).nodes }
    ensures recovered { IfOk result (IsRecovered (D.known folder.now log.now) (program_of (arc_value program.now)) node.0) }
    ensures silent { OnOk result (IsUntouched
        (change (F.written faults.old) (F.written faults.new) (F.failures faults.old) (F.failures faults.new))) }
    ensures fault { IfErr result (λ f. IsRecoveryFault f) }
    ensures quiet { IfErr result (λ f. IsQuiet f
        (change (F.written faults.old) (F.written faults.new) (F.failures faults.old) (F.failures faults.new))) }
{
    let Ok(file) = folder.open(log) else {
        return Err(Fault::File);
    };
    let mut source = Buffered::new(file);
    let mut wrong = Wrong {
        line: Vec::new(alloc),
        right: String::new(alloc),
    };
    match recover_log(
        alloc,
        program,
        node,
        keys,
        &mut source,
        &mut wrong.line,
        &mut wrong.right,
    ) {
        Ok(recovered) => Ok(recovered),
        Err(error) => Err(refuse(alloc, error, &wrong, faults)),
    }
}

/// Takes away what a crash left of the last line of a log, and says so.
fn cut_tail<L: Log, F: Sink>(
    log: &mut L,
    recovered: &Recovered,
    faults: &mut F,
) -> Result<(), Fault>
    ensures taken { OnOk result (CutsTail L.cuts recovered.now.cut recovered.now.bytes log.old log.new) }
    ensures written { IsUntouched (change (L.written log.old) (L.written log.new) (L.failures log.old) (L.failures log.new)) }
    ensures fault { IfErr result (λ f. IsSessionFault f) }
    ensures quiet { IfErr result (λ f. IsQuiet f
        (change (F.written faults.old) (F.written faults.new) (F.failures faults.old) (F.failures faults.new))) }
{
    let Some(number) = recovered.cut else {
        return Ok(());
    };
    match log.cut(recovered.bytes) {
        Ok(()) => {
            tell_cut(faults, number);
            Ok(())
        }
        Err(_) => Err(Fault::Output),
    }
}

/// Makes the calls of the input behind what was recovered of a log.
fn host_session<S: Source, L: Syncs, O: Sink>(
    alloc: Global,
    program: &Arc<Program>,
    node: NodeId,
    is_json: bool,
    recovered: Recovered,
    session: Session<'_>,
    waiting: &Waiting,
    input: &mut S,
    log: &mut L,
    output: &mut O,
) -> Result<Score, HostError>
    requires { node.0 < length (program_of (arc_value program.now)).nodes }
    ensures all { (before : List Logged) → Keeps (program_of (arc_value program.now)) node.0 before recovered.instances
        → IfOk result (λ score. HasHosted (calls (session_seen session.entry).caller) (program_of (arc_value program.now)) node.0
        (log_spelling (names_of (program_of (arc_value program.now)))) (spelling_of is_json (program_of (arc_value program.now)) node.0) before
        (S.left input.old) (S.left input.new) (L.written log.old) (L.written log.new) (O.written output.old) (O.written output.new) score) }
    ensures begun { (before : List Logged) → Keeps (program_of (arc_value program.now)) node.0 before recovered.instances
        → OnErr result (HasHostedSome (calls (session_seen session.entry).caller) (program_of (arc_value program.now)) node.0
        (log_spelling (names_of (program_of (arc_value program.now)))) (spelling_of is_json (program_of (arc_value program.now)) node.0) before
        (S.left input.old) (L.written log.old) (L.written log.new) (O.written output.old) (O.written output.new)) }
    ensures safe { (before : List Logged) → Keeps (program_of (arc_value program.now)) node.0 before recovered.instances
        → (session_seen session.entry).is_synced ≡ true → AreSafe (calls (session_seen session.entry).caller) (program_of (arc_value program.now)) node.0
        (log_spelling (names_of (program_of (arc_value program.now)))) (spelling_of is_json (program_of (arc_value program.now)) node.0) before
        (IsSafe L L.syncs L.written) (S.left input.old) (L.written log.old) (L.written log.new) (O.written output.old) (O.written output.new) }
    ensures lasts { (before : List Logged) → Keeps (program_of (arc_value program.now)) node.0 before recovered.instances
        → IfErr result (StopsBy (calls (session_seen session.entry).caller)) }
{
    let Session {
        caller,
        is_synced,
        ..
    } = session;
    if is_json {
        let teller = json_lines(alloc, program, node);
        host_behind(
            alloc, program, node, recovered, caller, &teller, is_synced, waiting, input, log,
            output,
        )
    } else {
        let names = program.names();
        let teller = LogLines { alloc, names };
        host_behind(
            alloc, program, node, recovered, caller, &teller, is_synced, waiting, input, log,
            output,
        )
    }
}

/// Opens a log to go on in it, reads and replays it, and makes the calls of the input behind it.
fn go_on<D: Folder, S: Source, L: Log, O: Sink, F: Sink>(
    alloc: Global,
    folder: &D,
    program: &Arc<Program>,
    node: NodeId,
    is_json: bool,
    session: Session<'_>,
    keys: RandomState,
    waiting: &Waiting,
    input: &mut S,
    log: &mut L,
    output: &mut O,
    faults: &mut F,
) -> Result<Result<Score, HostError>, Fault>
    requires { node.0 < length (program_of (arc_value program.now)).nodes }
    ensures ends { GoesOn (D.known folder.now session.entry.log.now) (IsReadied L L.opens L.cuts log.old session.entry.log.now)
        (IsSafe L L.syncs L.written) is_json
        (session_seen session.entry) (program_of (arc_value program.now)) node.0 (S.left input.old) (S.left input.new)
        (change (L.written log.old) (L.written log.new) (L.failures log.old) (L.failures log.new)) result
        (change (O.written output.old) (O.written output.new) (O.failures output.old) (O.failures output.new)) }
    ensures quiet { IfErr result (λ f. IsQuiet f
        (change (F.written faults.old) (F.written faults.new) (F.failures faults.old) (F.failures faults.new))) }
{
    // (nobody else writes on it from here on, so what is replayed is all of it)
    let Ok(()) = log.open(session.log) else {
        return Err(Fault::File);
    };
    let recovered = recover_file(alloc, folder, program, node, keys, session.log, faults)?;
    cut_tail(log, &recovered, faults)?;
    Ok(host_session(
        alloc, program, node, is_json, recovered, session, waiting, input, log, output,
    ))
}

fn fault_of(error: HostError) -> Fault
    ensures { result ≡ host_fault error }
{
    match error {
        HostError::Line(line) | HostError::Wrong(line) => Fault::Journal(line),
        HostError::Read => Fault::File,
        HostError::Write => Fault::Output,
        HostError::Memory => Fault::Memory,
        HostError::Full => Fault::Scripts(ScriptRefusal::Limit),
    }
}

/// Hosts instances of the node that the words name: makes the call of each line of the input on the instance that it names, and writes
/// its entry before the next line is read, as a line of a log, or with `--json` as an object; a line that is an entry of a log is replayed,
/// and has to be right. With a log among the words that is read and replayed first, and gone on in by `log`: the lines of the input are calls
/// alone, and an answer is begun only once the line of its entry is whole there, and with `--sync` once the log was synced with it. Gives the
/// status of the process: 0 where all lines were read and none was denied, 2 where one was, else that of the fault. `keys` are of the names'
/// hash function, and `waiting` are the lines that were read ahead of the input.
pub fn command<D: Folder, S: Source, L: Log, O: Sink, F: Sink>(
    alloc: Global,
    folder: &D,
    words: &[String],
    keys: RandomState,
    waiting: &Waiting,
    input: &mut S,
    log: &mut L,
    output: &mut O,
    faults: &mut F,
) -> u8
    ensures ends { Ends (ReadFails D.File D.File.left D.File.failures) (D.known folder.now) (IsReadied L L.opens L.cuts log.old) (IsSafe L L.syncs L.written)
        (asked (map string_bytes words.now)) (S.left input.old) (S.left input.new)
        (change (L.written log.old) (L.written log.new) (L.failures log.old) (L.failures log.new))
        (change (O.written output.old) (O.written output.new) (O.failures output.old) (O.failures output.new))
        (change (F.written faults.old) (F.written faults.new) (F.failures faults.old) (F.failures faults.new)) result }
    ensures stays { LogStays (asked (map string_bytes words.now))
        (change (L.written log.old) (L.written log.new) (L.failures log.old) (L.failures log.new)) }
{
    let mut wrong = Wrong {
        line: Vec::new(alloc),
        right: String::new(alloc),
    };
    match perform(
        alloc, folder, words, keys, waiting, input, log, output, &mut wrong, faults,
    ) {
        Ok(Ok(score)) => lines_status(score.refused),
        Ok(Err(error)) => {
            tell_wrong(alloc, error, &wrong, faults);
            tell(faults, fault_of(error))
        }
        Err(fault) => tell(faults, fault),
    }
}
