//! `lus --check PROGRAM` and `lus PROGRAM SCRIPTS`. By the name of another tool, through a link, the same program is that tool:
//! `lus_explain`, `lus_format`, `lus_draw`, `lus_audit`, `lus_live`, with `--many` the host of many instances and the audit of their log,
//! `lus_test` and `lus_lsp`.
#![tactic(auto)]

mod files;
mod instance;
mod journal;
mod leading;
mod mistaken;
mod sections;
mod tools;
mod usage;
mod wrong_line;

use crate::files::{name_unopened, names_none};
use crate::instance::{draw_instance, names_instance};
use crate::journal::JournalFile;
use crate::leading::{Reported, asks_why, tell_entries_before};
use crate::mistaken::{explain_rejected, explain_signal, explain_words};
use crate::tools::arguments_of;
use crate::usage::{introduce, was_introduced};
use crate::wrong_line::{Told, explain_line, journal_line};
use lus_bursts::{Counted, Syncs, Waiting};
use lus_cli::{Fault, command, tell};
use lus_devices::{Disk, Input, Output, Sink, write_all};
use lus_lines::Buffered;
use lus_many::is_many;
use std::collections::hash_map::RandomState;
use std::env;
use std::io::ErrorKind;
use std::process::ExitCode;
use std::str::from_utf8;

/// The status of a file that couldn't be read, or an output that couldn't be written.
const FILE_FAILED: u8 = 3;

/// The name under which the program was called, and the words behind it. Words that are no text are unknown arguments.
fn arguments(rt: &HostRuntime) -> Result<Vec<String>, Fault> {
    match env::args(rt) {
        Ok(arguments) => match arguments.collect(rt.alloc()) {
            Ok(words) => Ok(words),
            Err(_) => Err(Fault::Memory),
        },
        Err(error) => Err(match error.kind() {
            ErrorKind::OutOfMemory => Fault::Memory,
            _ => Fault::Words,
        }),
    }
}

/// The tool that a program called so is, and the words behind its name.
fn tool_and_words(arguments: &[String]) -> (&str, &[String]) {
    match arguments.split_first() {
        Some((path, words)) => match path.rsplit_once('/') {
            Some((_, name)) => (name, words),
            None => (path.as_str(), words),
        },
        None => ("lus", arguments),
    }
}

/// Audits the log of many instances, and says which entries of its instance stand before the first wrong one where reasons are asked. Keys for
/// the hash function of their names come from the machine.
fn audit_many<O: Sink, F: Sink>(
    rt: &HostRuntime,
    words: &[String],
    output: &mut O,
    faults: &mut F,
) -> u8 {
    let Ok(keys) = RandomState::new(rt) else {
        return tell(faults, Fault::File);
    };
    let mut reported = Reported::new(rt.alloc(), output);
    let status = lus_audit::command_many(rt.alloc(), &Disk(rt), words, keys, &mut reported, faults);
    if let Some(number) = reported.wrong_line() {
        if asks_why(words) {
            tell_entries_before(rt, rt.alloc(), words, number, faults);
        }
    }
    status
}

/// Says that another run writes to the file of a journal or a log, where it is held.
fn tell_held<F: Sink>(log: &JournalFile<'_>, what: &str, faults: &mut F) {
    if log.is_held() {
        for piece in ["lus_live: another run writes to this ", what, "\n"] {
            let _ = write_all(faults, piece.as_bytes());
        }
    }
}

/// Hosts many instances, and perhaps goes on in the file of their log.
fn live_many<O: Sink, F: Sink>(
    rt: &HostRuntime,
    words: &[String],
    output: &mut O,
    faults: &mut F,
) -> u8 {
    let Ok(keys) = RandomState::new(rt) else {
        return tell(faults, Fault::File);
    };
    let waiting = Waiting::new();
    let mut lines = Buffered::new(Counted {
        waiting: &waiting,
        source: Input(rt.stdin()),
    });
    let mut log = JournalFile::new(rt);
    let status = lus_many::command(
        rt.alloc(),
        &Disk(rt),
        words,
        keys,
        &waiting,
        &mut lines,
        &mut log,
        output,
        faults,
    );
    tell_held(&log, "log", faults);
    status
}

/// Plays calls on an instance, and perhaps goes on in the file of its journal.
fn live<O: Syncs, F: Sink>(
    rt: &HostRuntime,
    words: &[String],
    output: &mut O,
    faults: &mut F,
) -> u8 {
    let waiting = Waiting::new();
    let mut lines = Buffered::new(Counted {
        waiting: &waiting,
        source: Input(rt.stdin()),
    });
    let mut log = JournalFile::new(rt);
    let status = lus_live::command(
        rt.alloc(),
        &Disk(rt),
        words,
        &waiting,
        &mut lines,
        &mut log,
        output,
        faults,
    );
    tell_held(&log, "journal", faults);
    status
}

/// Runs the tool of this name, but `lus`, which begins threads: its status.
fn run<O: Syncs, F: Sink>(
    rt: &HostRuntime,
    tool: &str,
    words: &[String],
    output: &mut O,
    faults: &mut F,
) -> Option<u8> {
    let disk = Disk(rt);
    let status = match tool {
        "lus_explain" => lus_explain::command(rt.alloc(), &disk, words, output, faults),
        "lus_format" => {
            let mut input = Input(rt.stdin());
            lus_formatter::command(rt.alloc(), &disk, words, &mut input, output, faults)
        }
        "lus_draw" if names_instance(words) => draw_instance(rt, rt.alloc(), words, output, faults),
        "lus_draw" => lus_draw::command(rt.alloc(), &disk, words, output, faults),
        "lus_audit" if is_many(words) => audit_many(rt, words, output, faults),
        "lus_live" if is_many(words) => live_many(rt, words, output, faults),
        "lus_audit" => lus_audit::command(rt.alloc(), &disk, words, output, faults),
        "lus_live" => live(rt, words, output, faults),
        "lus_test" => lus_test::command(rt.alloc(), &disk, words, output, faults),
        "lus_lsp" => {
            let mut input = Buffered::new(Input(rt.stdin()));
            lus_lsp::command(rt.alloc(), words, &mut input, output, faults)
        }
        _ => return None,
    };
    Some(status)
}

/// Says behind the line of a fault more of it: which argument, file or signal it is of, or what is wrong with the line of a journal.
fn explain_fault<F: Sink>(
    rt: &HostRuntime,
    tool: &str,
    words: &[String],
    fault: &str,
    faults: &mut F,
) {
    if fault == "error words" && !was_introduced(tool, words) {
        explain_words(rt.alloc(), tool, words, faults);
    } else if fault.starts_with("error E") && tool != "lus_format" {
        explain_rejected(rt, rt.alloc(), tool, words, faults);
    } else if let Some(place) = fault.strip_prefix("error signal ") {
        explain_signal(rt.alloc(), tool, words, place, faults);
    } else if let Some(number) = journal_line(fault.as_bytes()) {
        explain_line(rt, rt.alloc(), tool, words, number, faults);
    }
}

/// The same as `run`, of a tool for people, which says more of a fault.
fn run_for_people<O: Syncs, F: Sink>(
    rt: &HostRuntime,
    tool: &str,
    words: &[String],
    output: &mut O,
    faults: &mut F,
) -> Option<u8> {
    let mut told = Told::new(rt.alloc(), faults);
    let status = run(rt, tool, words, output, &mut told);
    let fault = told.fault();
    if status == Some(FILE_FAILED) && names_none(tool) {
        name_unopened(rt, rt.alloc(), tool, words, faults);
    }
    explain_fault(rt, tool, words, from_utf8(&fault).unwrap_or(""), faults);
    status
}

fn main(rt: HostRuntime) -> ExitCode {
    let mut output = Output(rt.stdout());
    let mut faults = Output(rt.stderr());
    let arguments = match arguments(&rt) {
        Ok(arguments) => arguments,
        Err(fault) => return ExitCode::from(tell(&mut faults, fault)),
    };
    let (tool, words) = tool_and_words(&arguments);
    if let Some(status) = introduce(tool, words, &mut output, &mut faults) {
        return ExitCode::from(status);
    }
    let status = if arguments_of(tool).is_some() {
        run_for_people(&rt, tool, words, &mut output, &mut faults)
    } else {
        run(&rt, tool, words, &mut output, &mut faults)
    };
    ExitCode::from(match status {
        Some(status) => status,
        None => command(&rt, rt.alloc(), words, &mut output, &mut faults),
    })
}
