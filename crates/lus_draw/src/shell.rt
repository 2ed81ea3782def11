//! The command line over a folder.

ghost use Rattle.std.specs.Prelude.{◌≡◌, IfErr, IfOk, Some, map, string_bytes};
ghost use Rattle.std.specs.Arc.{arc_value};
ghost use Rattle.lus_cli.specs.Changes.{change};
ghost use Rattle.lus_cli.specs.Ends.{AskedEnds, Ends, ReadFails, SaysEnds};
ghost use Rattle.lus_cli.specs.CodeSpecs.Codes.{program_of};
ghost use Rattle.lus_draw.specs.CommandLine.{asked, drawing_seen, task_seen};
ghost use Rattle.lus_draw.specs.Ends.{DrawFails, DrawingFails, IsDrawing, IsDrawn, JournalFails, PageFails, TaskEnds};
ghost use Rattle.lus_draw.specs.Drawings.{Draws, IsLinePage};
ghost use Rattle.lus_devices.specs.Folders.{WithFile};

use crate::drawing::{drawing, is_page, journal_page, line_page};
use crate::words::{Drawing, Task, read_words};
use lus_cli::lus_host::Program;
use lus_cli::{Fault, read_file, read_program, tell};
use lus_devices::{Folder, Sink, write_all};
use std::alloc::Global;
use std::marker::Brand;
use std::sync::Arc;

/// Draws the journals of a file, of a program's nodes: as a page once all of it is read, else as it is read.
fn draw_file<D: Folder>(
    alloc: Global,
    folder: &D,
    task: Drawing<'_>,
    program: &Arc<Program>,
) -> Result<String, Fault>
    ensures drawn { IfOk result (λ s. WithFile (D.known folder.now task.entry.journal.now)
        (λ bytes. Draws (program_of (arc_value program.now)) (drawing_seen task.entry) (Some bytes) (string_bytes s))) }
    ensures fault { IfErr result (λ f. JournalFails (ReadFails D.File D.File.left D.File.failures) (D.known folder.now task.entry.journal.now)
        (program_of (arc_value program.now)) (drawing_seen task.entry) f) }
{
    if is_page(task.format) {
        let bytes = read_file(alloc, folder, task.journal, usize::MAX)?;
        return journal_page::<Brand>(alloc, task, program, &bytes);
    }
    match folder.open(task.journal) {
        Ok(journal) => drawing::<_, Brand>(alloc, task, program, journal),
        Err(_) => Err(Fault::File),
    }
}

/// Draws the journals of a file, of nodes of the program of another.
fn draw_journals<D: Folder>(alloc: Global, folder: &D, task: Drawing<'_>) -> Result<String, Fault>
    ensures drawn { IfOk result (λ s. IsDrawing (D.known folder.now task.entry.program.now) (D.known folder.now task.entry.journal.now)
        (drawing_seen task.entry) (string_bytes s)) }
    ensures fault { IfErr result (λ f. DrawingFails (ReadFails D.File D.File.left D.File.failures) (D.known folder.now task.entry.program.now)
        (D.known folder.now task.entry.journal.now) (drawing_seen task.entry) f) }
{
    let program = read_program(alloc, folder, task.program)?;
    let Ok(program) = Arc::new(alloc, program) else {
        return Err(Fault::Memory);
    };
    draw_file(alloc, folder, task, &program)
}

/// Draws the lines of a file of journals.
fn draw_lines<D: Folder>(alloc: Global, folder: &D, journal: &str) -> Result<String, Fault>
    ensures drawn { IfOk result (λ s. WithFile (D.known folder.now journal.now) (λ bytes. IsLinePage bytes (string_bytes s))) }
    ensures fault { IfErr result (λ f. PageFails (ReadFails D.File D.File.left D.File.failures) (D.known folder.now journal.now) f) }
{
    let bytes = read_file(alloc, folder, journal, usize::MAX)?;
    line_page(alloc, &bytes)
}

fn draw<D: Folder>(alloc: Global, folder: &D, task: Task<'_>) -> Result<String, Fault>
    ensures drawn { IfOk result (λ s. IsDrawn (D.known folder.now) (task_seen task.entry) (string_bytes s)) }
    ensures fault { IfErr result (λ f. DrawFails (ReadFails D.File D.File.left D.File.failures) (D.known folder.now) (task_seen task.entry) f) }
{
    match task {
        Task::Page(journal) => draw_lines(alloc, folder, journal),
        Task::Drawing(drawing) => draw_journals(alloc, folder, drawing),
    }
}

fn write_drawn<O: Sink>(output: &mut O, drawn: &str) -> Result<(), Fault>
    ensures { SaysEnds (λ done text. text ≡ drawn.now) (λ f. ⊥) result
        (change (O.written output.old) (O.written output.new) (O.failures output.old) (O.failures output.new)) }
{
    match write_all(output, drawn.as_bytes()) {
        Ok(()) => Ok(()),
        Err(_) => Err(Fault::Output),
    }
}

fn perform<D: Folder, O: Sink>(
    alloc: Global,
    folder: &D,
    words: &[String],
    output: &mut O,
) -> Result<(), Fault>
    ensures { AskedEnds (TaskEnds (ReadFails D.File D.File.left D.File.failures) (D.known folder.now))
        (asked (map string_bytes words.now)) result
        (change (O.written output.old) (O.written output.new) (O.failures output.old) (O.failures output.new)) }
{
    let task = read_words(alloc, words)?;
    let drawn = draw(alloc, folder, task)?;
    write_drawn(output, &drawn)
}

/// Draws what the words ask for of the files of a folder, and gives the status of the process: 0 where it is written, else
/// that of the fault.
pub fn command<D: Folder, O: Sink, F: Sink>(
    alloc: Global,
    folder: &D,
    words: &[String],
    output: &mut O,
    faults: &mut F,
) -> u8
    ensures { Ends (λ done. 0) (TaskEnds (ReadFails D.File D.File.left D.File.failures) (D.known folder.now))
        (asked (map string_bytes words.now))
        (change (O.written output.old) (O.written output.new) (O.failures output.old) (O.failures output.new))
        (change (F.written faults.old) (F.written faults.new) (F.failures faults.old) (F.failures faults.new)) result }
{
    match perform(alloc, folder, words, output) {
        Ok(()) => 0,
        Err(fault) => tell(faults, fault),
    }
}
