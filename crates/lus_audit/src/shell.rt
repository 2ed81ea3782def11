//! The command line over a folder.

ghost use Rattle.std.specs.Prelude.{◌≡◌, ◌++◌, IfErr, IfOk, false, is_none, map, string_bytes, true};
ghost use Rattle.std.specs.Arc.{arc_value};
ghost use Rattle.lus_cli.specs.Changes.{change};
ghost use Rattle.lus_cli.specs.Ends.{AskedEnds, Ends, ReadFails};
ghost use Rattle.lus_cli.specs.CodeSpecs.Codes.{program_of};
ghost use Rattle.lus_hosting.specs.LawfulSpecs.Errors.{BlamesIf, IsOutside};
ghost use Rattle.lus_hosting.specs.LawfulSpecs.Findings.{AreNone};
ghost use Rattle.lus_audit.specs.CommandLine.{asked};
ghost use Rattle.lus_audit.specs.Ends.{AuditFails, IsAudited, IsReported, TaskEnds, audit_fault, audit_status, shown};

use crate::reasons::Explanations;
use crate::words::{Task, read_words};
use lus_cli::{Fault, read_program, tell};
use lus_devices::{Folder, Sink, Source, write_all};
use lus_hosting::lus_lawful::{AuditError, Buffered, Report, Unobserved, audit};
use lus_hosting::lus_live_instance::lus_machine::Program;
use std::alloc::Global;
use std::sync::Arc;

pub(crate) fn fault_of(error: AuditError) -> Fault
    ensures { result ≡ audit_fault error }
{
    match error {
        AuditError::Line(line) => Fault::Journal(line),
        AuditError::Read => Fault::File,
        AuditError::Memory => Fault::Memory,
    }
}

/// The report as it is shown, which says where no journal was found.
fn shown(report: Report) -> Result<Report, AuditError>
    ensures ok { IfOk result (λ r. (r.wrong ≡ report.wrong) × (r.text.items ≡ shown report.text.items)) }
    ensures memory { IfErr result IsOutside }
{
    if !report.text.is_empty() {
        return Ok(report);
    }
    let mut report = report;
    match report.text.extend_from_slice(b"no journal\n") {
        Ok(()) => Ok(report),
        Err(_) => Err(AuditError::Memory),
    }
}

/// The report as it is shown, with reasons behind it.
fn with_reasons(report: Report, reasons: &[u8]) -> Result<Report, AuditError>
    ensures ok { IfOk result (λ r. (r.wrong ≡ report.wrong) × (r.text.items ≡ shown report.text.items ++ reasons.now)) }
    ensures memory { IfErr result IsOutside }
{
    let mut report = shown(report)?;
    if report.text.extend_from_slice(reasons).is_err() {
        return Err(AuditError::Memory);
    }
    Ok(report)
}

/// Audits journals, with the reasons of their refusals behind the report.
fn explain<S: Source>(
    alloc: Global,
    program: &Arc<Program>,
    source: &mut S,
) -> Result<Report, AuditError>
    ensures ok { IfOk result (λ r. IsReported (program_of (arc_value program.now)) true (is_none r.wrong) (S.left source.old) r.text.items) }
    ensures blames { IfErr result (BlamesIf (AreNone (program_of (arc_value program.now)) (S.left source.old))) }
{
    let text = Vec::new(alloc);
    let mut explanations = Explanations { text };
    match audit(alloc, program, source, &mut explanations) {
        Ok(report) => with_reasons(report, &explanations.text),
        Err(error) => Err(error),
    }
}

/// Audits journals, without reasons.
fn audit_plain<S: Source>(
    alloc: Global,
    program: &Arc<Program>,
    source: &mut S,
) -> Result<Report, AuditError>
    ensures ok { IfOk result (λ r. IsReported (program_of (arc_value program.now)) false (is_none r.wrong) (S.left source.old) r.text.items) }
    ensures blames { IfErr result (BlamesIf (AreNone (program_of (arc_value program.now)) (S.left source.old))) }
{
    match audit(alloc, program, source, &mut Unobserved) {
        Ok(report) => shown(report),
        Err(error) => Err(error),
    }
}

/// Audits journals, with the reasons of their refusals where they are asked.
fn audit_journals<S: Source>(
    alloc: Global,
    program: &Arc<Program>,
    is_why: bool,
    source: &mut S,
) -> Result<Report, AuditError>
    ensures ok { IfOk result (λ r. IsReported (program_of (arc_value program.now)) is_why (is_none r.wrong) (S.left source.old) r.text.items) }
    ensures blames { IfErr result (BlamesIf (AreNone (program_of (arc_value program.now)) (S.left source.old))) }
{
    if is_why {
        explain(alloc, program, source)
    } else {
        audit_plain(alloc, program, source)
    }
}

/// Audits the journals of a file, of nodes of the program of another.
fn audit_file<D: Folder>(alloc: Global, folder: &D, task: Task<'_>) -> Result<Report, Fault>
    ensures audited { IfOk result (λ r. IsAudited (D.known folder.now task.entry.program.now) (D.known folder.now task.entry.journal.now)
        task.entry.is_why (is_none r.wrong) r.text.items) }
    ensures fault { IfErr result (λ f. AuditFails (ReadFails D.File D.File.left D.File.failures) (D.known folder.now task.entry.program.now)
        (D.known folder.now task.entry.journal.now) f) }
{
    let program = read_program(alloc, folder, task.program)?;
    let Ok(program) = Arc::new(alloc, program) else {
        return Err(Fault::Memory);
    };
    let Ok(journal) = folder.open(task.journal) else {
        return Err(Fault::File);
    };
    match audit_journals(alloc, &program, task.is_why, &mut Buffered::new(journal)) {
        Ok(report) => Ok(report),
        Err(error) => Err(fault_of(error)),
    }
}

/// Whether the journals that the words name are lawful. What is reported of them is written.
fn perform<D: Folder, O: Sink>(
    alloc: Global,
    folder: &D,
    words: &[String],
    output: &mut O,
) -> Result<bool, Fault>
    ensures { AskedEnds (TaskEnds (ReadFails D.File D.File.left D.File.failures) (D.known folder.now))
        (asked (map string_bytes words.now)) result
        (change (O.written output.old) (O.written output.new) (O.failures output.old) (O.failures output.new)) }
{
    let task = read_words(alloc, words)?;
    let report = audit_file(alloc, folder, task)?;
    match write_all(output, &report.text) {
        Ok(()) => Ok(report.wrong.is_none()),
        Err(_) => Err(Fault::Output),
    }
}

/// Audits the journals that the words name among the files of a folder, and gives the status of the process: 0 where each is lawful,
/// 2 where a line isn't the right one, else that of the fault.
pub fn command<D: Folder, O: Sink, F: Sink>(
    alloc: Global,
    folder: &D,
    words: &[String],
    output: &mut O,
    faults: &mut F,
) -> u8
    ensures { Ends audit_status (TaskEnds (ReadFails D.File D.File.left D.File.failures) (D.known folder.now))
        (asked (map string_bytes words.now))
        (change (O.written output.old) (O.written output.new) (O.failures output.old) (O.failures output.new))
        (change (F.written faults.old) (F.written faults.new) (F.failures faults.old) (F.failures faults.new)) result }
{
    match perform(alloc, folder, words, output) {
        Ok(true) => 0,
        Ok(false) => 2,
        Err(fault) => tell(faults, fault),
    }
}
