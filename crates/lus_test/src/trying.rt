//! A node tried on the table of a file.

ghost use Rattle.std.specs.Prelude.{◌≡◌, ◌<◌, IfOk, OnOk, Some, false, length, map, option_map, true};
ghost use Rattle.std.specs.Arc.{arc_value};
ghost use Rattle.csv.specs.Records.{fields_of};
ghost use Rattle.lus_cli.specs.CodeSpecs.Codes.{program_of};
ghost use Rattle.lus_cli.specs.MachineSpecs.Formals.{node_named};
ghost use Rattle.lus_devices.specs.Devices.{with_text};
ghost use Rattle.lus_devices.specs.Folders.{WithFile};
ghost use Rattle.lus_test.specs.Ends.{FilePasses, HasRecords, IsNamed, IsPassed, TablePasses, has_objects};

use crate::covering::cover;
use crate::filling::filled;
use crate::finding::Finding;
use crate::journal::write_journal;
use crate::objects::{filled_objects, has_objects, read_objects};
use crate::problem::{Problem, explain, problem_of};
use crate::reading::read_records;
use crate::report::Report;
use crate::table::refuse_empty;
use crate::testing::{Tested, outputs_of, test};
use crate::words::Mode;
use csv::ByteRecord;
use lus_cli::{Fault, read_file};
use lus_coverage::Coverage;
use lus_devices::{Folder, Sink, write_all};
use lus_live_instance::lus_machine::{NodeId, Program, Reply};
use lus_refusals::lus_culprits::{node_names, push_unknown};
use lus_values::Memory;
use std::alloc::Global;
use std::sync::Arc;

/// The most bytes of a table.
const MOST_TABLE_BYTES: usize = 16_777_216;

/// The node that a table is of: what its file's name has before the first dot.
fn node_of_file(file: &str) -> &str {
    let name = match file.rsplit_once('/') {
        Some((_folder, name)) => name,
        None => file,
    };
    match name.split_once('.') {
        Some((node, _rest)) => node,
        None => name,
    }
}

/// Why a program has no node of a name.
fn no_node(alloc: Global, program: &Program, name: &str) -> Result<String, Memory> {
    let names = node_names(alloc, program.source())?;
    let mut text = String::new(alloc);
    push_unknown(
        &mut text,
        alloc,
        "the program has no node ",
        name,
        "; its nodes are ",
        &names,
    )?;
    Ok(text)
}

/// The node of a name.
pub(crate) fn find_node(
    alloc: Global,
    program: &Arc<Program>,
    name: &str,
) -> Result<NodeId, Problem>
    ensures named { IfOk result (λ node. node_named (program_of (arc_value program.now)) name.now ≡ Some node.0) }
    ensures within { IfOk result (λ node. node.0 < length (program_of (arc_value program.now)).nodes) }
{
    match program.node(name) {
        Some(node) => Ok(node),
        None => Err(Problem::Lacks(no_node(alloc, program, name)?)),
    }
}

/// The bytes of a file.
fn text_of<D: Folder>(alloc: Global, folder: &D, file: &str) -> Result<Vec<u8>, Problem>
    ensures { IfOk result (λ v. WithFile (D.known folder.now file.now) (λ bytes. v.items ≡ bytes)) }
{
    let text = read_file(alloc, folder, file, MOST_TABLE_BYTES + 1)?;
    if text.len() > MOST_TABLE_BYTES {
        return Err(Problem::Large);
    }
    Ok(text)
}

/// The records of a file: of comma-separated values, or of the objects that stand there for a node.
fn records_of<D: Folder>(
    alloc: Global,
    folder: &D,
    program: &Arc<Program>,
    node: NodeId,
    file: &str,
) -> Result<Vec<ByteRecord>, Problem>
    requires { node.0 < length (program_of (arc_value program.now)).nodes }
    ensures { IfOk result (λ v. HasRecords (has_objects file.now) (D.known folder.now file.now) (map fields_of v.items)) }
{
    let text = text_of(alloc, folder, file)?;
    if has_objects(file) {
        read_objects(alloc, program, node, &text)
    } else {
        Ok(read_records(alloc, &text)?)
    }
}

/// Writes a text.
pub(crate) fn write_text<O: Sink>(output: &mut O, text: &[u8]) -> Result<(), Problem>
    ensures { OnOk result (O.written output.new ≡ with_text (O.written output.old) text.now) }
{
    match write_all(output, text) {
        Ok(()) => Ok(()),
        Err(_) => Err(Problem::Fault(Fault::Output)),
    }
}

/// Says which rows are refused, and gives whether none is.
fn tell_refused<F: Sink>(
    alloc: Global,
    report: &Report<'_>,
    faults: &mut F,
) -> Result<bool, Problem> {
    let mut is_answered = true;
    for (row, reply) in report.tested.replies.iter().enumerate() {
        if let Reply::Refused(_) = reply {
            is_answered = false;
            let mut text = String::new(alloc);
            report.push_refused(&mut text, row)?;
            let _ = write_all(faults, text.as_bytes());
        }
    }
    Ok(is_answered)
}

/// The table of a report, with the outputs that come.
fn filled_table(report: &Report<'_>) -> Result<Vec<u8>, Memory> {
    let places = &report.tested.places;
    let replies = &report.tested.replies;
    if has_objects(report.name) {
        filled_objects(&report.outputs, places, report.head, report.rows, replies)
    } else {
        filled(&report.outputs, places, report.head, report.rows, replies)
    }
}

/// Says what is found of a table: whether it passes.
fn conclude<O: Sink, F: Sink>(
    report: &Report<'_>,
    mode: Mode,
    output: &mut O,
    faults: &mut F,
) -> Result<bool, Problem>
    ensures { IfOk result (λ ok. ok ≡ true → IsPassed report.now.tested.now.finding) }
{
    let text = report.text()?;
    if mode.is_quiet() {
        let _ = write_all(faults, text.as_bytes());
    } else {
        write_text(output, text.as_bytes())?;
    }
    Ok(report.tested.finding == Finding::Passed)
}

/// Writes a table anew, or the journal of its run, or says what is found of it: whether it passes, or where it is written anew has no row
/// that is refused.
fn answer<O: Sink, F: Sink>(
    alloc: Global,
    program: &Arc<Program>,
    report: &Report<'_>,
    mode: Mode,
    output: &mut O,
    faults: &mut F,
) -> Result<bool, Problem>
    ensures { IfOk result (λ ok. ok ≡ true → mode.is_written ≡ false → IsPassed report.now.tested.now.finding) }
{
    if mode.is_written {
        let text = filled_table(report)?;
        write_text(output, &text)?;
        return tell_refused(alloc, report, faults);
    }
    if mode.is_journal {
        let Tested { steps, replies, .. } = report.tested;
        let node = report.node_name();
        write_journal(alloc, program.names(), node, steps, replies, output)?;
    }
    conclude(report, mode, output, faults)
}

/// Tries a node on the table of a file.
fn try_file<D: Folder, O: Sink, F: Sink>(
    alloc: Global,
    folder: &D,
    program: &Arc<Program>,
    name: &str,
    file: &str,
    mode: Mode,
    coverage: &mut Option<Coverage<'_>>,
    output: &mut O,
    faults: &mut F,
) -> Result<bool, Problem>
    ensures { IfOk result (λ ok. ok ≡ true → mode.is_written ≡ false
        → FilePasses (program_of (arc_value program.now)) name.now (has_objects file.now) (D.known folder.now file.now)) }
{
    let node = find_node(alloc, program, name)?;
    let records = records_of(alloc, folder, program, node, file)?;
    let Some((head, rows)) = records.split_first() else {
        return Err(problem_of(refuse_empty(alloc, program, node), &records));
    };
    let tested = match test(alloc, program, node, head, rows) {
        Ok(tested) => tested,
        Err(error) => return Err(problem_of(error, &records)),
    };
    cover(coverage, node, &tested)?;
    let report = Report {
        name: file,
        node: node.0 as usize,
        outputs: outputs_of(alloc, program, node),
        head,
        rows,
        tested: &tested,
    };
    answer(alloc, program, &report, mode, output, faults)
}

/// The name of a table's node, which may be given.
fn name_of<'n>(node: Option<&'n str>, file: &'n str) -> &'n str
    ensures { IsNamed (option_map (λ name. name.now) node.entry) result.now }
{
    match node {
        Some(name) => name,
        None => node_of_file(file),
    }
}

/// Tries a table of a task: the status.
pub(crate) fn try_table<D: Folder, O: Sink, F: Sink>(
    alloc: Global,
    folder: &D,
    program: &Arc<Program>,
    node: Option<&str>,
    file: &str,
    mode: Mode,
    coverage: &mut Option<Coverage<'_>>,
    output: &mut O,
    faults: &mut F,
) -> u8
    ensures { result ≡ 0 → mode.is_written ≡ false → TablePasses (D.known folder.now) (program_of (arc_value program.now))
        (option_map (λ name. name.now) node.entry) file.now }
{
    let name = name_of(node, file);
    match try_file(
        alloc, folder, program, name, file, mode, coverage, output, faults,
    ) {
        Ok(true) => 0,
        Ok(false) => 1,
        Err(problem) => explain(alloc, faults, file, problem),
    }
}
