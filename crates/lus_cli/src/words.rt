//! The words of the command line.

ghost use Rattle.std.specs.Prelude.{◌≡◌, ◌≢◌, IfOk, OnOk, Some, None, Err, [], map, option_map, string_bytes, true};
ghost use Rattle.clap.specs.Words.{app_of, fault_of, found_of, is_simple, is_simple_and_free, matches_of, rows_of};
ghost use Rattle.lus_cli.specs.CommandLine.{asked, lus, said, task_seen};
ghost use Rattle.lus_cli.specs.declared.words.WordsError.TheVariants.{Memory};

use crate::tool::{bare, is_set, value_of, with_flag, with_optional, with_required};
use clap::error::ErrorKind;
use clap::{ArgMatches, Command};
use std::alloc::{AllocError, Global};
use thiserror::Error;

/// What the words ask for, over files that are named.
#[derive(Clone, Copy)]
pub enum Task<'a> {
    Check { program: &'a str },
    Run { program: &'a str, scripts: &'a str },
}

/// Why the words were refused.
#[derive(Clone, Copy, Debug, Error)]
pub enum WordsError {
    #[error("unknown or missing arguments")]
    Mistaken,
    #[error("out of memory")]
    Memory,
}

impl From<AllocError> for WordsError {
    ghost from_gives = { λ _ e. e ≡ Memory };

    fn from(_error: AllocError) -> WordsError {
        WordsError::Memory
    }
}

fn command<'a>(alloc: Global) -> Result<Command<'a>, AllocError>
    ensures { IfOk result (λ c. app_of c ≡ lus) }
{
    let check = with_flag(alloc, bare(alloc, "lus"), "check")?;
    let program = with_required(alloc, check, "PROGRAM")?;
    with_optional(alloc, program, "SCRIPTS")
}

/// What the words say to a command's arguments. Words that the command doesn't take are mistaken.
pub fn matches<'a>(command: Command<'a>, words: &'a [String]) -> Result<ArgMatches<'a>, WordsError>
    requires simple { is_simple (app_of command) ≡ true }
    requires free { is_simple_and_free (app_of command) ≡ true }
    ensures right { OnOk result (fault_of (app_of command.entry) (map string_bytes words.now) ≡ []) }
    ensures rows { IfOk result (λ m. rows_of (found_of m) ≡ matches_of (app_of command.entry) (map string_bytes words.now)) }
    ensures mistaken { result ≡ Err WordsError.Mistaken → fault_of (app_of command.entry) (map string_bytes words.now) ≢ [] }
{
    match command.try_get_matches_from(words) {
        Ok(matches) => Ok(matches),
        Err(error) => Err(match error.kind() {
            ErrorKind::OutOfMemory => WordsError::Memory,
            _ => WordsError::Mistaken,
        }),
    }
}

/// What the words after the program's own name ask for.
pub fn read_words<'a>(alloc: Global, words: &'a [String]) -> Result<Task<'a>, WordsError>
    ensures ok { IfOk result (λ task. asked (map string_bytes words.now) ≡ Some (task_seen task)) }
    ensures mistaken { result ≡ Err WordsError.Mistaken → asked (map string_bytes words.now) ≡ None }
{
    let matches = matches(command(alloc)?, words)?;
    choose(&matches).ok_or(WordsError::Mistaken)
}

/// SCRIPTS stands exactly where `--check` doesn't.
fn choose<'a>(matches: &ArgMatches<'a>) -> Option<Task<'a>>
    ensures { option_map task_seen result ≡ said (rows_of (found_of matches.now)) }
{
    let program = value_of(matches, "PROGRAM")?;
    match (is_set(matches, "check"), value_of(matches, "SCRIPTS")) {
        (true, None) => Some(Task::Check { program }),
        (false, Some(scripts)) => Some(Task::Run { program, scripts }),
        _ => None,
    }
}
