//! Which argument of a tool for people is wrong, and what is near it.

use crate::files::{named_files, opens};
use crate::tools::{
    apart_in, arguments_of, beside_in, files_in, numbers_in, placed_words, value_behind,
};
use crate::wrong_line::read_line;
use clap::{Arg, ArgAction, Command};
use lus_cli::{bare, with_flag, with_optional, with_required, with_value};
use lus_devices::{Disk, Sink, write_all};
use lus_printable::printable;
use std::alloc::{AllocError, Global};
use std::rt::Files;

/// A hint of clap's that helps nobody here: no file's name is likely to begin with two hyphens.
const AS_VALUE: &str = "tip: to pass ";

/// A command with one more of the arguments that are typed so.
fn with_argument<'a>(
    alloc: Global,
    command: Command<'a>,
    argument: &'a str,
) -> Result<Command<'a>, AllocError> {
    if let Some(name) = argument.strip_prefix("--") {
        return match name.strip_suffix("=") {
            Some(name) => with_value(alloc, command, name),
            None => with_flag(alloc, command, name),
        };
    }
    if let Some(name) = argument.strip_suffix("..") {
        let several = Arg::new(alloc, name).required(true);
        return command.arg(several.action(ArgAction::Append));
    }
    match argument.strip_prefix("[") {
        Some(name) => with_optional(alloc, command, name.trim_end_matches(']')),
        None => with_required(alloc, command, argument),
    }
}

/// What is wrong with the words behind a tool's name, on lines of their own; an empty text where each word is an argument.
fn mistake_in(
    alloc: Global,
    tool: &str,
    arguments: &str,
    words: &[String],
) -> Result<String, AllocError> {
    let help = with_flag(alloc, bare(alloc, tool), "help")?;
    let mut command = with_flag(alloc, help, "version")?;
    for argument in arguments.split(' ') {
        command = with_argument(alloc, command, argument)?;
    }
    match command.try_get_matches_from(words) {
        Ok(_) => Ok(String::new(alloc)),
        Err(error) => format!(in alloc; "{error}"),
    }
}

/// Says it of a tool in a line.
fn tell_line<F: Sink>(alloc: Global, tool: &str, text: &str, faults: &mut F) {
    if let Ok(text) = printable(alloc, text.as_bytes()) {
        for piece in [tool, ": ", text.as_str(), "\n"] {
            let _ = write_all(faults, piece.as_bytes());
        }
    }
}

/// Says of a tool what clap says of a mistake in a line, where that helps here.
fn tell_mistake<F: Sink>(alloc: Global, tool: &str, line: &str, faults: &mut F) {
    let text = line.strip_prefix("error: ").unwrap_or(line).trim();
    if !text.is_empty() && !text.starts_with(AS_VALUE) {
        tell_line(alloc, tool, text, faults);
    }
}

/// Whether a flag or an option stands among words.
fn is_given(words: &[String], argument: &str) -> bool {
    for word in words {
        let name = word.split('=').next().unwrap_or("");
        if name == argument {
            return true;
        }
    }
    false
}

/// Which two of the words exclude each other, or which lacks another one; an empty text where none does.
fn mismatch(alloc: Global, tool: &str, words: &[String]) -> Result<String, AllocError> {
    for (one, other) in apart_in(tool) {
        if is_given(words, one) && is_given(words, other) {
            return format!(in alloc; "`{one}` and `{other}` do not go together");
        }
    }
    for (one, other) in beside_in(tool) {
        if is_given(words, one) && !is_given(words, other) {
            return format!(in alloc; "`{one}` goes with `{other}` alone");
        }
    }
    Ok(String::new(alloc))
}

/// Which option has a value that is no number, or no right one; an empty text where none has.
fn misnumbered(alloc: Global, tool: &str, words: &[String]) -> Result<String, AllocError> {
    for (option, least) in numbers_in(tool) {
        if let Some(value) = value_behind(words, option) {
            let is_taken = value.parse::<u64>().is_ok_and(|number| number >= *least);
            if !is_taken {
                return format!(in alloc;
                    "`{option}` takes a whole number from {least} on, not `{value}`"
                );
            }
        }
    }
    Ok(String::new(alloc))
}

/// That other files are named than a tool takes; an empty text where as many are.
fn misplaced(alloc: Global, tool: &str, words: &[String]) -> Result<String, AllocError> {
    let count = placed_words(alloc, tool, words)?.len();
    for (behind, least, most, files) in files_in(tool) {
        let is_meant = behind.is_empty() || is_given(words, behind);
        if !is_meant {
            continue;
        }
        if *least <= count && count <= *most {
            break;
        }
        let names = if count == 1 { "name is" } else { "names are" };
        if behind.is_empty() {
            return format!(in alloc; "it takes {files}, and {count} {names} given");
        }
        return format!(in alloc; "with `{behind}` it takes {files}, and {count} {names} given");
    }
    Ok(String::new(alloc))
}

/// What is wrong with words each of which is an argument of a tool.
fn misuse(alloc: Global, tool: &str, words: &[String]) -> Result<String, AllocError> {
    for text in [
        mismatch(alloc, tool, words)?,
        misnumbered(alloc, tool, words)?,
        misplaced(alloc, tool, words)?,
    ] {
        if !text.is_empty() {
            return Ok(text);
        }
    }
    if is_given(words, "--from") && is_given(words, "--to") {
        return String::from_str(alloc, "`--from` is greater than `--to`");
    }
    let together = "these arguments do not go together, or have another value than they take";
    String::from_str(alloc, together)
}

/// Says which of the words behind a tool's name is wrong and what is near it, and where its arguments are told.
pub fn explain_words<F: Sink>(alloc: Global, tool: &str, words: &[String], faults: &mut F) {
    let Some(arguments) = arguments_of(tool) else {
        return;
    };
    let Ok(mistake) = mistake_in(alloc, tool, arguments, words) else {
        return;
    };
    if mistake.is_empty() {
        if let Ok(misuse) = misuse(alloc, tool, words) {
            tell_line(alloc, tool, misuse.as_str(), faults);
        }
    }
    // (the usage that follows is clap's own, which says less than that of `--help`)
    for line in mistake.lines() {
        if line.starts_with("Usage: ") {
            break;
        }
        tell_mistake(alloc, tool, line, faults);
    }
    for piece in [tool, ": see `", tool, " --help`\n"] {
        let _ = write_all(faults, piece.as_bytes());
    }
}

fn tell_no_variable<F: Sink>(alloc: Global, tool: &str, name: &str, faults: &mut F) {
    if let Ok(text) = format!(in alloc; "a node there has no variable `{name}`") {
        tell_line(alloc, tool, text.as_str(), faults);
    }
}

/// Names the signal at a place among those that are asked for.
pub fn explain_signal<F: Sink>(
    alloc: Global,
    tool: &str,
    words: &[String],
    place: &str,
    faults: &mut F,
) {
    let Ok(place) = place.parse::<usize>() else {
        return;
    };
    let mut at = 1usize;
    for name in value_behind(words, "--signals").unwrap_or("").split(',') {
        if at == place {
            tell_no_variable(alloc, tool, name, faults);
        }
        at = at.saturating_add(1);
    }
}

/// Whether a file of this name is likely to be a table.
fn is_table(name: &str) -> bool {
    name.ends_with(".csv") || name.ends_with(".jsonl")
}

/// Says of a rejected program which command tells why, or that its file is a journal or a table.
pub fn explain_rejected<R: Files, F: Sink>(
    rt: &R,
    alloc: Global,
    tool: &str,
    words: &[String],
    faults: &mut F,
) {
    let Ok(files) = named_files(alloc, tool, words) else {
        return;
    };
    let Some(name) = files.first() else {
        return;
    };
    let mut line = Vec::new(alloc);
    if !opens(rt, name) || read_line(&Disk(rt), name, 1, &mut line).is_none() {
        return;
    }
    let text = if line.starts_with(b"instance ") {
        format!(in alloc; "{name} is a journal, and the program's file comes first")
    } else if is_table(name) {
        format!(in alloc; "{name} is a table, and the program's file comes first")
    } else {
        format!(in alloc; "`lus_explain {name}` says why it is rejected")
    };
    if let Ok(text) = text {
        tell_line(alloc, tool, text.as_str(), faults);
    }
}
