//! The command line with `--many` over a folder.

ghost use Rattle.std.specs.Prelude.{◌≡◌, ◌++◌, ◌<◌, IfErr, IfOk, Some, length, map, string_bytes, true};
ghost use Rattle.std.specs.Arc.{arc_value};
ghost use Rattle.indexmap.specs.IndexMap.{get_by_text};
ghost use Rattle.lus_cli.specs.Changes.{change};
ghost use Rattle.lus_cli.specs.CodeSpecs.Codes.{program_of};
ghost use Rattle.lus_cli.specs.Ends.{AskedEnds, Ends, ReadFails};
ghost use Rattle.lus_cli.specs.declared.fault.Fault.TheVariants.{Memory as OutOfMemory};
ghost use Rattle.lus_audit.specs.Ends.{audit_status};
ghost use Rattle.lus_audit.specs.LogReasons.{ExplainsFrom};
ghost use Rattle.lus_audit.specs.Logs.{IsLogAudited, IsLogFound, IsLogReported, LogAuditFails, LogIsLost, LogTaskEnds, asked};
ghost use Rattle.lus_devices.specs.Folders.{WithFile};
ghost use Rattle.lus_hosting.specs.Audits.{Observes};

use crate::log_reasons::{Explainers, Explanations};
use crate::log_words::{LogTask, read_log_words};
use crate::shell::fault_of;
use indexmap::IndexMap;
use lus_cli::lus_host::ScriptRefusal;
use lus_cli::{Fault, read_program, tell};
use lus_devices::{Folder, Sink, write_all};
use lus_hosting::lus_lawful::{Buffered, Unobserved};
use lus_hosting::lus_live_instance::lus_machine::{NodeId, Program};
use lus_hosting::{LogObserver, LogReport, audit_log};
use std::alloc::Global;
use std::collections::hash_map::RandomState;
use std::sync::Arc;

/// Audits the log of a file once, of instances of a node.
fn audit_once<D: Folder, O: LogObserver>(
    alloc: Global,
    folder: &D,
    program: &Arc<Program>,
    node: NodeId,
    log: &str,
    keys: RandomState,
    observer: &mut O,
) -> Result<LogReport, Fault>
    requires { node.0 < length (program_of (arc_value program.now)).nodes }
    ensures audited { let p = program_of (arc_value program.now) in
        IfOk result (λ r. WithFile (D.known folder.now log.now)
        (IsLogFound p node.0 (Observes (O.seen observer.old p node.0) (O.seen observer.new p node.0)) r.is_lawful r.text.items)) }
    ensures fault { IfErr result (LogIsLost (program_of (arc_value program.now)) (D.known folder.now log.now)) }
{
    let Ok(log) = folder.open(log) else {
        return Err(Fault::File);
    };
    let mut line = Vec::new(alloc);
    let mut source = Buffered::new(log);
    match audit_log(alloc, program, node, keys, &mut source, &mut line, observer) {
        Ok(report) => Ok(report),
        Err(error) => Err(fault_of(error)),
    }
}

/// Audits the log of a file once, with the reasons of the instances that are followed.
fn audit_following<D: Folder>(
    alloc: Global,
    folder: &D,
    program: &Arc<Program>,
    node: NodeId,
    log: &str,
    keys: RandomState,
    followed: Explainers,
) -> Result<(LogReport, Explanations), Fault>
    requires { node.0 < length (program_of (arc_value program.now)).nodes }
    ensures audited { let p = program_of (arc_value program.now) in
        IfOk result (λ r. WithFile (D.known folder.now log.now)
        (IsLogFound p node.0 (ExplainsFrom p node.0 (get_by_text followed) r.1) r.0.is_lawful r.0.text.items)) }
    ensures fault { IfErr result (LogIsLost (program_of (arc_value program.now)) (D.known folder.now log.now)) }
{
    let mut explanations = Explanations::new(alloc, followed, keys);
    let observer = &mut explanations;
    let report = audit_once(alloc, folder, program, node, log, keys, observer)?;
    Ok((report, explanations))
}

/// The report, with the reasons behind it.
fn with_reasons(report: LogReport, explanations: &Explanations) -> Result<LogReport, Fault>
    ensures ok { IfOk result (λ r. (r.is_lawful ≡ report.is_lawful) × (r.text.items ≡ report.text.items ++ string_bytes explanations.now.text)) }
    ensures memory { IfErr result (λ f. f ≡ OutOfMemory) }
{
    let mut report = report;
    let reasons = explanations.text.as_bytes();
    if report.text.extend_from_slice(reasons).is_err() {
        return Err(Fault::Memory);
    }
    Ok(report)
}

/// Audits the log of a file, with the reasons of its refusals behind the report. Those of an instance need its entries from the first on,
/// so where some were refused the file is read a second time, and then those instances are followed. That has to read what was read before.
fn explain<D: Folder>(
    alloc: Global,
    folder: &D,
    program: &Arc<Program>,
    node: NodeId,
    log: &str,
    keys: RandomState,
) -> Result<LogReport, Fault>
    requires { node.0 < length (program_of (arc_value program.now)).nodes }
    ensures audited { IfOk result (λ r. WithFile (D.known folder.now log.now)
        (IsLogReported (program_of (arc_value program.now)) node.0 true r.is_lawful r.text.items)) }
    ensures fault { IfErr result (LogIsLost (program_of (arc_value program.now)) (D.known folder.now log.now)) }
{
    let none = IndexMap::with_hasher(alloc, keys);
    let (report, first) = audit_following(alloc, folder, program, node, log, keys, none)?;
    if first.is_whole {
        return with_reasons(report, &first);
    }
    let (lines, followed) = (first.lines, first.unfollowed);
    let (again, second) = audit_following(alloc, folder, program, node, log, keys, followed)?;
    if second.is_whole && lines <= second.lines {
        with_reasons(again, &second)
    } else {
        Err(Fault::File)
    }
}

/// Audits the log of a file, with the reasons of its refusals where they are asked.
fn audit_node<D: Folder>(
    alloc: Global,
    folder: &D,
    program: &Arc<Program>,
    node: NodeId,
    log: &str,
    is_why: bool,
    keys: RandomState,
) -> Result<LogReport, Fault>
    requires { node.0 < length (program_of (arc_value program.now)).nodes }
    ensures audited { IfOk result (λ r. WithFile (D.known folder.now log.now)
        (IsLogReported (program_of (arc_value program.now)) node.0 is_why r.is_lawful r.text.items)) }
    ensures fault { IfErr result (LogIsLost (program_of (arc_value program.now)) (D.known folder.now log.now)) }
{
    if is_why {
        explain(alloc, folder, program, node, log, keys)
    } else {
        audit_once(alloc, folder, program, node, log, keys, &mut Unobserved)
    }
}

/// Audits the log of a file, of instances of a node of another's program.
fn audit_file<D: Folder>(
    alloc: Global,
    folder: &D,
    task: LogTask<'_>,
    keys: RandomState,
) -> Result<LogReport, Fault>
    ensures audited { IfOk result (λ r. IsLogAudited (D.known folder.now task.entry.program.now) (D.known folder.now task.entry.log.now)
        task.entry.node.now task.entry.is_why r.is_lawful r.text.items) }
    ensures fault { IfErr result (λ f. LogAuditFails (ReadFails D.File D.File.left D.File.failures) (D.known folder.now task.entry.program.now)
        (D.known folder.now task.entry.log.now) task.entry.node.now f) }
{
    let program = read_program(alloc, folder, task.program)?;
    let Some(node) = program.node(task.node) else {
        return Err(Fault::Scripts(ScriptRefusal::Unknown));
    };
    let Ok(program) = Arc::new(alloc, program) else {
        return Err(Fault::Memory);
    };
    audit_node(alloc, folder, &program, node, task.log, task.is_why, keys)
}

/// Whether the log that the words name is lawful. What is reported of it is written.
fn perform<D: Folder, O: Sink>(
    alloc: Global,
    folder: &D,
    words: &[String],
    keys: RandomState,
    output: &mut O,
) -> Result<bool, Fault>
    ensures { AskedEnds (LogTaskEnds (ReadFails D.File D.File.left D.File.failures) (D.known folder.now))
        (asked (map string_bytes words.now)) result
        (change (O.written output.old) (O.written output.new) (O.failures output.old) (O.failures output.new)) }
{
    let task = read_log_words(alloc, words)?;
    let report = audit_file(alloc, folder, task, keys)?;
    match write_all(output, &report.text) {
        Ok(()) => Ok(report.is_lawful),
        Err(_) => Err(Fault::Output),
    }
}

/// Audits the log that the words name among the files of a folder, says why its requests were refused where that is asked, and gives the
/// status of the process: 0 where it is lawful, 2 where a line isn't the right one, else that of the fault. `keys` are of the hash function
/// of instances' names.
pub fn command_many<D: Folder, O: Sink, F: Sink>(
    alloc: Global,
    folder: &D,
    words: &[String],
    keys: RandomState,
    output: &mut O,
    faults: &mut F,
) -> u8
    ensures { Ends audit_status (LogTaskEnds (ReadFails D.File D.File.left D.File.failures) (D.known folder.now))
        (asked (map string_bytes words.now))
        (change (O.written output.old) (O.written output.new) (O.failures output.old) (O.failures output.new))
        (change (F.written faults.old) (F.written faults.new) (F.failures faults.old) (F.failures faults.new)) result }
{
    match perform(alloc, folder, words, keys, output) {
        Ok(true) => 0,
        Ok(false) => 2,
        Err(fault) => tell(faults, fault),
    }
}
