//! The command line, over a folder and over the files of the machine.

ghost use Rattle.std.specs.Prelude.{◌≡◌, ◌⊎◌, Err, None, Some, map, string_bytes};
ghost use Rattle.lus_devices.specs.declared.device.Input.{Input};
ghost use Rattle.lus_cli.specs.Changes.{Writes, change};
ghost use Rattle.lus_cli.specs.CommandLine.{asked};
ghost use Rattle.lus_cli.specs.Ends.{AskedEnds, CheckEnds, Ends, ReadFails, RunEnds, TaskEnds};
ghost use Rattle.lus_cli.specs.Faults.{IsToldBy, fault_line, run_outcome};

use crate::fault::Fault;
use crate::line::write_fault;
use crate::words::{Task, read_words};
use lus_devices::{Disk, Failure, Folder, Sink, write_all};
use lus_host::{OpenGate, RunError, check, run};
use std::alloc::Global;
use std::rt::Files;
use std::sync::Wait;
use std::thread::Threads;

fn write_line<F: Sink>(faults: &mut F, fault: &Fault) -> Result<(), Failure>
    ensures { Writes result (fault_line fault.now)
        (change (F.written faults.old) (F.written faults.new) (F.failures faults.old) (F.failures faults.new)) }
{
    write_all(faults, b"error ")?;
    write_fault(faults, fault)?;
    write_all(faults, b"\n")
}

/// Writes the fault's line and gives its status. A line that can't be written changes no status.
pub fn tell<F: Sink>(faults: &mut F, fault: Fault) -> u8
    ensures { IsToldBy result fault (change (F.written faults.old) (F.written faults.new) (F.failures faults.old) (F.failures faults.new)) }
{
    let _ = write_line(faults, &fault);
    fault.status()
}

fn check_file<D: Folder, O: Sink, R>(
    rt: &R,
    alloc: Global,
    folder: &D,
    program: &str,
    output: &mut O,
) -> Result<(), Fault>
    ensures ends { CheckEnds (ReadFails D.File D.File.left D.File.failures) (D.known folder.now program.now) result
        (change (O.written output.old) (O.written output.new) (O.failures output.old) (O.failures output.new)) }
    ensures missing { D.known folder.now program.now ≡ Some None → result ≡ Err Fault.File }
{
    let Ok(mut program) = folder.open(program) else {
        return Err(Fault::File);
    };
    check(rt, alloc, &mut program, output)?;
    Ok(())
}

/// How a run ended: one in which a caller ended short did so out of memory.
fn ended(ran: Result<bool, RunError>) -> Result<(), Fault>
    ensures { result ≡ run_outcome ran }
{
    match ran {
        Ok(true) => Ok(()),
        Ok(false) => Err(Fault::Memory),
        Err(error) => Err(Fault::from(error)),
    }
}

/// Both files are opened before either is read. Where a caller ran out of something, the journals are written all the same.
fn run_files<D: Folder, O: Sink, R: Threads + Wait + Sync>(
    rt: &R,
    alloc: Global,
    folder: &D,
    program: &str,
    scripts: &str,
    output: &mut O,
) -> Result<(), Fault>
    ensures ends { RunEnds (ReadFails D.File D.File.left D.File.failures)
        (D.known folder.now program.now) (D.known folder.now scripts.now) result
        (change (O.written output.old) (O.written output.new) (O.failures output.old) (O.failures output.new)) }
    ensures missing { (D.known folder.now program.now ≡ Some None) ⊎ (D.known folder.now scripts.now ≡ Some None) → result ≡ Err Fault.File }
{
    let Ok(mut program) = folder.open(program) else {
        return Err(Fault::File);
    };
    let Ok(mut scripts) = folder.open(scripts) else {
        return Err(Fault::File);
    };
    ended(run(rt, alloc, &mut program, &mut scripts, output, &OpenGate))
}

fn perform<D: Folder, O: Sink, R: Threads + Wait + Sync>(
    rt: &R,
    alloc: Global,
    folder: &D,
    words: &[String],
    output: &mut O,
) -> Result<(), Fault>
    ensures { AskedEnds (TaskEnds (ReadFails D.File D.File.left D.File.failures) (D.known folder.now))
        (asked (map string_bytes words.now)) result
        (change (O.written output.old) (O.written output.new) (O.failures output.old) (O.failures output.new)) }
{
    match read_words(alloc, words)? {
        Task::Check { program } => check_file(rt, alloc, folder, program, output),
        Task::Run { program, scripts } => run_files(rt, alloc, folder, program, scripts, output),
    }
}

/// Does what the words ask for over the files of a folder, with a device for the output and one for the line of a fault, and
/// gives the status of the process: 0 where all is done, else that of the fault which ended it.
pub fn command_in<D: Folder, O: Sink, F: Sink, R: Threads + Wait + Sync>(
    rt: &R,
    alloc: Global,
    folder: &D,
    words: &[String],
    output: &mut O,
    faults: &mut F,
) -> u8
    ensures ends { Ends (λ done. 0) (TaskEnds (ReadFails D.File D.File.left D.File.failures) (D.known folder.now))
        (asked (map string_bytes words.now))
        (change (O.written output.old) (O.written output.new) (O.failures output.old) (O.failures output.new))
        (change (F.written faults.old) (F.written faults.new) (F.failures faults.old) (F.failures faults.new)) result }
    ensures kept { (result ≡ 1) ⊎ (result ≡ 2) → O.written output.new ≡ O.written output.old }
    ensures quiet { result ≡ 0 → (F.written faults.new ≡ F.written faults.old) × (O.failures output.new ≡ O.failures output.old) }
{
    match perform(rt, alloc, folder, words, output) {
        Ok(()) => 0,
        Err(fault) => tell(faults, fault),
    }
}

/// Does what the words ask for over the files of the machine, as `command_in` does over those of a folder. Of the machine's files
/// nothing is known.
pub fn command<O: Sink, F: Sink, R: Files + Threads + Wait + Sync>(
    rt: &R,
    alloc: Global,
    words: &[String],
    output: &mut O,
    faults: &mut F,
) -> u8
    ensures ends { Ends (λ done. 0) (TaskEnds (ReadFails (Input R.File) (λ file. None) (λ file. None)) (λ name. None))
        (asked (map string_bytes words.now))
        (change (O.written output.old) (O.written output.new) (O.failures output.old) (O.failures output.new))
        (change (F.written faults.old) (F.written faults.new) (F.failures faults.old) (F.failures faults.new)) result }
    ensures kept { (result ≡ 1) ⊎ (result ≡ 2) → O.written output.new ≡ O.written output.old }
    ensures quiet { result ≡ 0 → (F.written faults.new ≡ F.written faults.old) × (O.failures output.new ≡ O.failures output.old) }
{
    command_in(rt, alloc, &Disk(rt), words, output, faults)
}
