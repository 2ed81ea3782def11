//! What a run goes on behind: nothing, or what a journal has.

ghost use Rattle.std.specs.Prelude.{◌≡◌, ◌<◌, [], IfErr, IfOk, OnOk, Some, length, option_map};
ghost use Rattle.std.specs.Arc.{arc_value};
ghost use Rattle.lus_cli.specs.Changes.{IsUntouched, change};
ghost use Rattle.lus_cli.specs.CodeSpecs.Codes.{program_of};
ghost use Rattle.lus_cli.specs.Faults.{IsQuiet};
ghost use Rattle.lus_cli.specs.MachineSpecs.Formals.{node_named};
ghost use Rattle.lus_cli.specs.declared.fault.Fault.TheVariants.{File as LostFile, Memory as OutOfMemory};
ghost use Rattle.lus_live.specs.CommandLine.{writes_file};
ghost use Rattle.lus_live.specs.Ends.{Begins, IsBeginFault, IsOpened, IsRecovered, IsRecoveryFault, Opens, recovery_fault};
ghost use Rattle.lus_live_instance.specs.Lives.{IsLive};
ghost use Rattle.lus_sessions.specs.declared.recovering.Start.TheVariants as starts;

use crate::log::Log;
use crate::notes::{tell_no_entry, tell_start, tell_wrong};
use crate::words::{Task, writes_file};
use lus_cli::Fault;
use lus_devices::{Folder, Sink};
use lus_lines::Buffered;
use lus_live_instance::lus_machine::{NodeId, Program};
use lus_live_instance::{Instance, new_instance};
use lus_sessions::{RecoveryError, Start, recover};
use std::alloc::Global;
use std::sync::Arc;

/// An instance, and where a run of it goes on in its journal.
#[derive(Drop)]
pub(crate) struct Begun {
    pub(crate) instance: Instance,
    pub(crate) start: Start,
}

/// Why the journal of a node isn't gone on from. The line that isn't right is shown, a wrong reply beside the right one.
fn refuse<F: Sink>(
    alloc: Global,
    error: RecoveryError,
    name: &str,
    line: &[u8],
    right: &[u8],
    faults: &mut F,
) -> Fault
    ensures fault { result ≡ recovery_fault error }
    ensures quiet { IsQuiet result (change (F.written faults.old) (F.written faults.new) (F.failures faults.old) (F.failures faults.new)) }
{
    match error {
        RecoveryError::Line(number) => {
            tell_no_entry(alloc, faults, name, number, line);
            Fault::Journal(number)
        }
        RecoveryError::Wrong(number) => {
            tell_wrong(alloc, faults, line, right);
            Fault::Journal(number)
        }
        RecoveryError::Read => Fault::File,
        RecoveryError::Memory => Fault::Memory,
    }
}

/// Begins behind nothing.
fn begin_new(alloc: Global, program: &Arc<Program>, node: NodeId) -> Result<Begun, Fault>
    requires { node.0 < length (program_of (arc_value program.now)).nodes }
    ensures live { IfOk result (λ b. IsLive (program_of (arc_value program.now)) node.0 b.instance.reactor) }
    ensures start { IfOk result (λ b. b.start ≡ starts.Head 0) }
    ensures empty { IfOk result (λ b. b.instance.reactor.history ≡ []) }
    ensures fault { IfErr result (λ f. f ≡ OutOfMemory) }
{
    let Ok(instance) = new_instance(alloc, program, node) else {
        return Err(Fault::Memory);
    };
    Ok(Begun {
        instance,
        start: Start::Head(0),
    })
}

/// Reads a journal, and replays it on a new instance.
fn recover_file<D: Folder, F: Sink>(
    alloc: Global,
    folder: &D,
    program: &Arc<Program>,
    node: NodeId,
    name: &str,
    journal: &str,
    faults: &mut F,
) -> Result<Begun, Fault>
    requires { node.0 < length (program_of (arc_value program.now)).nodes }
    ensures live { IfOk result (λ b. IsLive (program_of (arc_value program.now)) node.0 b.instance.reactor) }
    ensures recovered { IfOk result (λ b. IsRecovered (D.known folder.now journal.now) (program_of (arc_value program.now)) name.now
        b.start b.instance.reactor.history) }
    ensures fault { IfErr result (λ f. IsRecoveryFault f) }
    ensures quiet { IfErr result (λ f. IsQuiet f
        (change (F.written faults.old) (F.written faults.new) (F.failures faults.old) (F.failures faults.new))) }
{
    let Ok(file) = folder.open(journal) else {
        return Err(Fault::File);
    };
    let mut source = Buffered::new(file);
    let mut line = Vec::new(alloc);
    let mut right = String::new(alloc);
    let Begun {
        mut instance,
        start: _,
    } = begin_new(alloc, program, node)?;
    match recover(
        alloc,
        program.names(),
        name,
        &mut instance,
        &mut source,
        &mut line,
        &mut right,
    ) {
        Ok(start) => Ok(Begun { instance, start }),
        Err(error) => Err(refuse(alloc, error, name, &line, right.as_bytes(), faults)),
    }
}

/// Opens the file of a journal, where the run itself writes on in it: from then on no other run does.
fn open_log<L: Log>(is_written: bool, journal: &str, log: &mut L) -> Result<(), Fault>
    ensures opened { OnOk result (IsOpened is_written (Opens L L.opens log.old) (Some journal.now)) }
    ensures written { L.written log.new ≡ L.written log.old }
    ensures failures { L.failures log.new ≡ L.failures log.old }
    ensures fault { IfErr result (λ f. f ≡ LostFile) }
{
    if !is_written {
        return Ok(());
    }
    match log.open(journal) {
        Ok(()) => Ok(()),
        Err(_) => Err(Fault::File),
    }
}

/// Reads and replays the journal that is named, which is opened before, where the run itself writes on in it; or begins anew.
pub(crate) fn begin<D: Folder, L: Log, F: Sink>(
    alloc: Global,
    folder: &D,
    program: &Arc<Program>,
    node: NodeId,
    task: Task<'_>,
    log: &mut L,
    faults: &mut F,
) -> Result<Begun, Fault>
    requires { node.0 < length (program_of (arc_value program.now)).nodes }
    ensures live { IfOk result (λ b. IsLive (program_of (arc_value program.now)) node.0 b.instance.reactor) }
    ensures begins { IfOk result (λ b. Begins (D.known folder.now) (program_of (arc_value program.now)) task.entry.node.now
        (option_map (λ f. f.now) task.entry.journal) b.start b.instance.reactor.history) }
    ensures opened { OnOk result (IsOpened (writes_file task.entry.form (option_map (λ f. f.now) task.entry.journal))
        (Opens L L.opens log.old) (option_map (λ f. f.now) task.entry.journal)) }
    ensures written { L.written log.new ≡ L.written log.old }
    ensures failures { L.failures log.new ≡ L.failures log.old }
    ensures fault { IfErr result (λ f. IsBeginFault (option_map (λ f. f.now) task.entry.journal) f) }
    ensures quiet { IfErr result (λ f. IsQuiet f
        (change (F.written faults.old) (F.written faults.new) (F.failures faults.old) (F.failures faults.new))) }
{
    let Some(journal) = task.journal else {
        return begin_new(alloc, program, node);
    };
    let is_written = writes_file(task.form, task.journal);
    open_log(is_written, journal, log)?;
    let begun = recover_file(alloc, folder, program, node, task.node, journal, faults)?;
    tell_start(faults, begun.start);
    Ok(begun)
}
