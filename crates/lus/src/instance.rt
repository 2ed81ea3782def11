//! The journal of one instance out of a log of many, which `lus_draw --instance` draws: it stands for the log among the files.

ghost use Rattle.std.specs.Prelude.{None};

use crate::tools::{placed_words, takes_word, value_behind};
use crate::wrong_line::{Told, journal_line, replies};
use itoa::Buffer;
use lus_cli::lus_host::{Memory, ScriptRefusal};
use lus_cli::{Fault, tell};
use lus_culprits::push_name;
use lus_devices::{Disk, Failure, Folder, Sink, Source, write_all};
use lus_faults::nearest;
use lus_lines::{Buffered, LineError, Whole, read_whole_line};
use std::alloc::{AllocError, Global};
use std::rt::Files;
use std::str::from_utf8;

/// The words of a drawing of one instance.
#[derive(Drop)]
struct Asked<'w> {
    instance: &'w str,
    /// What `lus_draw` takes without the instance: flags with what stands behind them, PROGRAM and LOG.
    rest: Vec<String>,
    program: &'w str,
    node: &'w str,
    log: &'w str,
}

/// Whether the words ask for one instance.
pub fn names_instance(words: &[String]) -> bool {
    words.iter().any(|word| word.as_str() == "--instance" || word.starts_with("--instance="))
}

/// Whether a word names an instance, or the option whose value is the next word, the instance.
fn is_of_instance(before: &str, word: &str) -> bool {
    before == "--instance" || word == "--instance" || word.starts_with("--instance=")
}

/// The flags of a drawing with what stands behind them, but for the instance.
fn flags(alloc: Global, words: &[String]) -> Result<Vec<String>, AllocError> {
    let mut flags = Vec::new(alloc);
    let mut before = "";
    for word in words {
        let word = word.as_str();
        let is_flag = word.starts_with("-") || takes_word("lus_draw", before);
        if is_flag && !is_of_instance(before, word) {
            flags.push(String::from_str(alloc, word)?)?;
        }
        before = word;
    }
    Ok(flags)
}

/// What the words ask for, where there are an instance, a PROGRAM, a NODE and a LOG.
fn read_words<'w>(alloc: Global, words: &'w [String]) -> Result<Option<Asked<'w>>, AllocError> {
    let Some(instance) = value_behind(words, "--instance") else {
        return Ok(None);
    };
    let placed = placed_words(alloc, "lus_draw", words)?;
    let [program, node, log] = *placed.as_slice() else {
        return Ok(None);
    };
    let mut rest = flags(alloc, words)?;
    rest.push(String::from_str(alloc, program)?)?;
    rest.push(String::from_str(alloc, log)?)?;
    Ok(Some(Asked {
        instance,
        rest,
        program,
        node,
        log,
    }))
}

/// The journal of an instance as a log has it, and which lines of the log its lines are.
#[derive(Drop)]
struct Extract {
    text: Vec<u8>,
    lines: Vec<u64>,
    /// The name in the log that is nearest to the instance's, while no entry is its own.
    near: Option<String>,
}

/// The entry that a line has behind the name of its instance.
fn entry_of<'l>(instance: &str, line: &'l [u8]) -> Option<&'l [u8]> {
    match line.strip_prefix(instance.as_bytes()) {
        Some([b' ', entry @ ..]) if entry.first().is_some_and(|byte| byte.is_ascii_digit()) => Some(
            entry,
        ),
        _ => None,
    }
}

/// The nearer name of the one that was nearest and that of a line's instance.
fn nearer(
    alloc: Global,
    wanted: &str,
    near: Option<String>,
    line: &[u8],
) -> Result<Option<String>, Memory> {
    let Some((name, _)) = from_utf8(line).ok().and_then(|line| line.split_once(' ')) else {
        return Ok(near);
    };
    let best = near.as_deref().unwrap_or(name);
    match nearest(alloc, wanted, &[best, name])? {
        Some(found) => Ok(Some(String::from_str(alloc, found)?)),
        None => Ok(near),
    }
}

/// Takes a line of a log into the journal of an instance, if it is an entry of it.
fn take_line(
    alloc: Global,
    asked: &Asked<'_>,
    extract: Extract,
    line: &[u8],
    number: u64,
) -> Result<Extract, Memory> {
    let mut extract = extract;
    match entry_of(asked.instance, line) {
        Some(entry) => {
            extract.text.extend_from_slice(entry)?;
            extract.lines.push(number)?;
        }
        None if extract.lines.len() < 2 => {
            extract.near = nearer(alloc, asked.instance, extract.near, line)?;
        }
        None => {}
    }
    Ok(extract)
}

/// The journal of an instance, of which nothing was read yet.
fn begun(alloc: Global, asked: &Asked<'_>) -> Result<Extract, Memory> {
    let mut text = Vec::new(alloc);
    let (instance, node) = (asked.instance, asked.node);
    for piece in ["instance ", instance, " ", node, "\n"] {
        text.extend_from_slice(piece.as_bytes())?;
    }
    let mut lines = Vec::new(alloc);
    lines.push(1)?;
    Ok(Extract {
        text,
        lines,
        near: None,
    })
}

/// A journal with the number of its entries as its last line, as it has none in a log.
fn counted(extract: Extract) -> Result<Extract, Memory> {
    let mut extract = extract;
    let mut digits = Buffer::new();
    let entries = digits
        .format(extract.lines.len().saturating_sub(1))
        .as_bytes();
    for piece in [b"entries ".as_slice(), entries, b"\n"] {
        extract.text.extend_from_slice(piece)?;
    }
    Ok(extract)
}

/// Reads a log, and keeps the journal of an instance. There is none where a read failed.
fn read_log<S: Source + Drop>(
    alloc: Global,
    asked: &Asked<'_>,
    log: S,
) -> Result<Option<Extract>, Memory> {
    let mut source = Buffered::new(log);
    let mut line = Vec::new(alloc);
    let mut extract = begun(alloc, asked)?;
    for number in 1..u64::MAX {
        match read_whole_line(&mut source, &mut line) {
            Ok(Whole::Line) => extract = take_line(alloc, asked, extract, &line, number)?,
            Ok(Whole::Unfinished | Whole::End) => return Ok(Some(counted(extract)?)),
            Err(LineError::Read) => return Ok(None),
            Err(LineError::Memory) => return Err(Memory),
        }
    }
    Err(Memory)
}

/// A file among others, or these bytes in its place.
#[derive(Drop)]
pub enum Either<'a, F> {
    Bytes(&'a [u8]),
    File(F),
}

impl<F: Source> Source for Either<'_, F> {
    ghost left = { λ _. None };

    ghost failures = { λ _. None };

    fn read(&mut self, buffer: &mut [u8]) -> Result<usize, Failure> {
        match self {
            Either::Bytes(bytes) => bytes.read(buffer),
            Either::File(file) => file.read(buffer),
        }
    }
}

/// Files, of which one has these bytes.
#[derive(Drop)]
struct Overlaid<'a, D> {
    folder: &'a D,
    name: &'a str,
    bytes: &'a [u8],
}

impl<'a, D: Folder> Folder for Overlaid<'a, D> {
    type File = Either<'a, D::File>;

    ghost known = { λ _ _. None };

    fn open(&self, name: &str) -> Result<Either<'a, D::File>, Failure> {
        if name == self.name {
            return Ok(Either::Bytes(self.bytes));
        }
        match self.folder.open(name) {
            Ok(file) => Ok(Either::File(file)),
            Err(_) => Err(Failure),
        }
    }
}

/// Says that a log has no instance of a name, and which name is near.
fn tell_unknown<F: Sink>(alloc: Global, asked: &Asked<'_>, near: Option<String>, faults: &mut F) {
    let mut text = String::new(alloc);
    let _ = text.push_str("note: the log has no entry of an instance ");
    let _ = push_name(&mut text, asked.instance);
    if let Some(near) = near {
        let _ = text.push_str("; did you mean ");
        let _ = push_name(&mut text, near.as_str());
        let _ = text.push_str("?");
    }
    let _ = text.push_str("\n");
    let _ = write_all(faults, text.as_bytes());
}

/// Which line of the log the one of this number in an instance's journal is.
fn place_of(extract: &Extract, line: u64) -> Option<u64> {
    let place = usize::try_from(line.checked_sub(1)?).ok()?;
    extract.lines.get(place).copied()
}

/// Draws the journal of an instance, whose lines have other numbers in the log: the status.
fn draw<D: Folder, O: Sink, F: Sink>(
    alloc: Global,
    folder: &D,
    asked: &Asked<'_>,
    extract: &Extract,
    output: &mut O,
    faults: &mut F,
) -> u8 {
    let overlaid = Overlaid {
        folder,
        name: asked.log,
        bytes: &extract.text,
    };
    let mut said = Vec::new(alloc);
    let mut told = Told::new(alloc, &mut said);
    let status = lus_draw::command(alloc, &overlaid, &asked.rest, output, &mut told);
    let fault = told.fault();
    let place = journal_line(&fault).and_then(|line| place_of(extract, line));
    match place {
        Some(number) => {
            let status = tell(faults, Fault::Journal(number));
            if let Some(lines) = replies(alloc, &overlaid, &[asked.program, asked.log]) {
                let _ = write_all(faults, lines.as_bytes());
            }
            status
        }
        None => {
            let _ = write_all(faults, &said);
            status
        }
    }
}

/// Draws one instance of a log as the words ask for: the status of the process.
pub fn draw_instance<R: Files, O: Sink, F: Sink>(
    rt: &R,
    alloc: Global,
    words: &[String],
    output: &mut O,
    faults: &mut F,
) -> u8 {
    let asked = match read_words(alloc, words) {
        Ok(Some(asked)) => asked,
        Ok(None) => return tell(faults, Fault::Words),
        Err(AllocError) => return tell(faults, Fault::Memory),
    };
    let disk = Disk(rt);
    let Ok(log) = disk.open(asked.log) else {
        return tell(faults, Fault::File);
    };
    match read_log(alloc, &asked, log) {
        Ok(Some(extract)) if extract.lines.len() < 2 => {
            tell_unknown(alloc, &asked, extract.near, faults);
            tell(faults, Fault::Scripts(ScriptRefusal::Unknown))
        }
        Ok(Some(extract)) => draw(alloc, &disk, &asked, &extract, output, faults),
        Ok(None) => tell(faults, Fault::File),
        Err(Memory) => tell(faults, Fault::Memory),
    }
}
