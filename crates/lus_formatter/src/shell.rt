//! The command line over a folder.

use crate::problem::Problem;
use crate::replacing::Replace;
use crate::words::{Mode, read_words};
use lus_cli::{Fault, tell};
use lus_devices::{Folder, Sink, Source, read_at_most, write_all};
use lus_format::format;
use lus_syntax::{MOST_BYTES, Refusal, RefusalNumber, place_behind};
use std::alloc::Global;

/// The bytes of a file, or of the input where its name is `-`, but at most one more than a source may have.
fn bytes_of<D: Folder, I: Source>(
    alloc: Global,
    folder: &D,
    name: &str,
    input: &mut I,
) -> Result<Vec<u8>, Problem> {
    if name == "-" {
        return Ok(read_at_most(alloc, input, MOST_BYTES + 1)?);
    }
    let Ok(mut file) = folder.open(name) else {
        return Err(Problem::File);
    };
    Ok(read_at_most(alloc, &mut file, MOST_BYTES + 1)?)
}

/// The text of these bytes, unless `lus` rejects them as too long or as no text.
fn source_of(bytes: &[u8]) -> Result<&str, Refusal> {
    if bytes.len() > MOST_BYTES {
        return Err(Refusal::new(RefusalNumber::Limit, 1, 1));
    }
    match str::from_utf8(bytes) {
        Ok(source) => Ok(source),
        Err(error) => {
            let place = place_behind(bytes.get(..error.valid_up_to()).unwrap_or(b""));
            Err(Refusal::new(RefusalNumber::Lexical, place.line, place.column))
        }
    }
}

fn write_text<O: Sink>(output: &mut O, text: &str) -> Result<(), Problem> {
    write_all(output, text.as_bytes()).map_err(|_| Problem::Output)
}

/// Lays out a file, and says whether that changes it.
fn perform<D: Replace, I: Source, O: Sink>(
    alloc: Global,
    folder: &D,
    mode: Mode,
    name: &str,
    input: &mut I,
    output: &mut O,
) -> Result<bool, Problem> {
    let bytes = bytes_of(alloc, folder, name, input)?;
    let source = source_of(&bytes)?;
    let made = format(alloc, source)?;
    let is_changed = made.as_str() != source;
    if mode == Mode::Print || (mode == Mode::Write && name == "-") {
        write_text(output, made.as_str())?;
    } else if is_changed && mode == Mode::Check {
        write_text(output, name)?;
        write_text(output, "\n")?;
    } else if is_changed {
        folder.replace(alloc, name, made.as_bytes())?;
    }
    Ok(is_changed)
}

/// Says why a file isn't laid out, and gives the status. A line that can't be written changes no status.
fn explain<F: Sink>(alloc: Global, faults: &mut F, name: &str, problem: &Problem) -> u8 {
    if let Ok(line) = format!(in alloc; "{name}: {problem}\n") {
        let _ = write_all(faults, line.as_bytes());
    }
    problem.status()
}

/// Lays out the files that the words name, and gives the status of the process: 1 where a file is rejected, or is only checked and would
/// change, 2 where the words are unknown or missing, 3 where a file or the output fails, and 4 where memory is out; of several files the
/// greatest. A file that is rejected, or that doesn't change, stays as it is.
pub fn command<D: Replace, I: Source, O: Sink, F: Sink>(
    alloc: Global,
    folder: &D,
    words: &[String],
    input: &mut I,
    output: &mut O,
    faults: &mut F,
) -> u8 {
    let task = match read_words(alloc, words) {
        Ok(task) => task,
        Err(error) => return tell(faults, Fault::from(error)),
    };
    let mut status = 0;
    for &name in task.files().unwrap_or(&[]) {
        let own = match perform(alloc, folder, task.mode, name, input, output) {
            Ok(is_changed) => u8::from(is_changed && task.mode == Mode::Check),
            Err(problem) => explain(alloc, faults, name, &problem),
        };
        status = status.max(own);
    }
    status
}
