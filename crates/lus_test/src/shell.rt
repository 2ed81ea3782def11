//! The command line over a folder.

ghost use Rattle.std.specs.Prelude.{◌≡◌, IfOk, Some, false, map, option_map, string_bytes};
ghost use Rattle.std.specs.Arc.{arc_value};
ghost use Rattle.std.specs.List.{All};
ghost use Rattle.lus_cli.specs.CodeSpecs.Codes.{program_of};
ghost use Rattle.lus_test.specs.CommandLine.{asked, task_seen};
ghost use Rattle.lus_test.specs.Ends.{AllPass, IsWell, TablePasses};

use crate::claim_shell::perform_claim;
use crate::covering::{begin_coverage, tell_coverage};
use crate::options::is_trial;
use crate::trying::try_table;
use crate::words::{Mode, Task, read_words};
use lus_cli::{Fault, read_program, tell};
use lus_coverage::Coverage;
use lus_devices::{Folder, Sink};
use lus_live_instance::lus_machine::Program;
use std::alloc::Global;
use std::sync::Arc;

/// The greater of two statuses.
fn greater(one: u8, other: u8) -> u8
    ensures one { result ≡ 0 → one ≡ 0 }
    ensures other { result ≡ 0 → other ≡ 0 }
{
    if other > one { other } else { one }
}

/// Tries tables: the greatest status of all.
fn try_all<D: Folder, O: Sink, F: Sink>(
    alloc: Global,
    folder: &D,
    program: &Arc<Program>,
    node: Option<&str>,
    files: &[&str],
    mode: Mode,
    coverage: &mut Option<Coverage<'_>>,
    output: &mut O,
    faults: &mut F,
) -> u8
    ensures { result ≡ 0 → mode.is_written ≡ false → All (TablePasses (D.known folder.now) (program_of (arc_value program.now))
        (option_map (λ name. name.now) node.entry)) (map (λ file. file.now) files.now) }
{
    let mut status = 0;
    for file in files {
        let own = try_table(
            alloc, folder, program, node, *file, mode, coverage, output, faults,
        );
        status = greater(status, own);
    }
    status
}

/// Tries these tables of a program, and tells the branches that they took, where that is wanted: the status.
fn try_tables<D: Folder, O: Sink, F: Sink>(
    alloc: Global,
    folder: &D,
    program: &Arc<Program>,
    task: &Task<'_>,
    files: &[&str],
    output: &mut O,
    faults: &mut F,
) -> Result<u8, Fault>
    ensures { IfOk result (λ status. status ≡ 0 → task.now.mode.is_written ≡ false
        → All (TablePasses (D.known folder.now) (program_of (arc_value program.now)) (option_map (λ name. name.now) task.now.node))
        (map (λ file. file.now) files.now)) }
{
    let Ok(mut coverage) = begin_coverage(alloc, program, task.mode) else {
        return Err(Fault::Memory);
    };
    let status = try_all(
        alloc,
        folder,
        program,
        task.node,
        files,
        task.mode,
        &mut coverage,
        output,
        faults,
    );
    tell_coverage(alloc, task.program, program, &coverage, task.mode, output)?;
    Ok(status)
}

/// Reads the program of a task and tries its tables: the status. Only one table is written anew or as a journal.
fn perform<D: Folder, O: Sink, F: Sink>(
    alloc: Global,
    folder: &D,
    task: &Task<'_>,
    output: &mut O,
    faults: &mut F,
) -> Result<u8, Fault>
    ensures { IfOk result (λ status. status ≡ 0 → AllPass (D.known folder.now) (Some (task_seen task.now))) }
{
    let Some(files) = task.tables() else {
        return Err(Fault::Words);
    };
    if !task.mode.is_sound() || task.mode.is_single() && files.len() != 1 {
        return Err(Fault::Words);
    }
    let program = read_program(alloc, folder, task.program)?;
    let Ok(program) = Arc::new(alloc, program) else {
        return Err(Fault::Memory);
    };
    try_tables(alloc, folder, &program, task, files, output, faults)
}

/// Reads the words, and tries the tables that they name: the status.
fn perform_tables<D: Folder, O: Sink, F: Sink>(
    alloc: Global,
    folder: &D,
    words: &[String],
    output: &mut O,
    faults: &mut F,
) -> Result<u8, Fault>
    ensures { IfOk result (λ status. status ≡ 0 → AllPass (D.known folder.now) (asked (map string_bytes words.now))) }
{
    let task = read_words(alloc, words)?;
    perform(alloc, folder, &task, output, faults)
}

/// Reads the words, and does what they ask for: the status.
fn perform_words<D: Folder, O: Sink, F: Sink>(
    alloc: Global,
    folder: &D,
    words: &[String],
    output: &mut O,
    faults: &mut F,
) -> Result<u8, Fault>
    ensures { IfOk result (λ status. status ≡ 0 → IsWell (D.known folder.now) (map string_bytes words.now)) }
{
    if is_trial(words) {
        perform_claim(alloc, folder, words, output, faults)
    } else {
        perform_tables(alloc, folder, words, output, faults)
    }
}

/// Tries nodes of a program on the tables that the words name, and says of each that it passes, or where it first doesn't; with `--write`
/// writes the one table anew, with the outputs that come, with `--journal` the journal of its run, and with `--coverage` which branches of
/// `if` and `merge` the runs took; with `--random` tries an output on random inputs, and says that it holds, or
/// writes the table of a run in which it doesn't. Gives the status of the process: 0 where each table passes, no row of the one that is
/// written is refused, or the output holds; 1 where one doesn't, or the program is rejected; 2 where the words are unknown or missing, or
/// a table has a wrong line or no node; 3 where a file or the output fails, and 4 where memory is out; of several tables the greatest.
pub fn command<D: Folder, O: Sink, F: Sink>(
    alloc: Global,
    folder: &D,
    words: &[String],
    output: &mut O,
    faults: &mut F,
) -> u8
    ensures { result ≡ 0 → IsWell (D.known folder.now) (map string_bytes words.now) }
{
    match perform_words(alloc, folder, words, output, faults) {
        Ok(status) => status,
        Err(fault) => tell(faults, fault),
    }
}
