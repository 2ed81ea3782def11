//! The words of the command line.

ghost use Rattle.std.specs.Prelude.{◌≡◌, IfOk, Some, None, Err, map, option_map, string_bytes};
ghost use Rattle.clap.specs.Words.{app_of, found_of, rows_of};
ghost use Rattle.lus_cli.specs.declared.words.WordsError.TheVariants.{Mistaken};
ghost use Rattle.lus_audit.specs.CommandLine.{asked, said, task_seen, the_command};

use clap::{ArgMatches, Command};
use lus_cli::{WordsError, bare, is_set, matches, value_of, with_flag, with_required};
use std::alloc::{AllocError, Global};

/// What the words ask for: an audit of a file of journals, of nodes of a program, and perhaps why requests were refused.
#[derive(Clone, Copy)]
pub struct Task<'a> {
    pub is_why: bool,
    pub program: &'a str,
    pub journal: &'a str,
}

fn command<'a>(alloc: Global) -> Result<Command<'a>, AllocError>
    ensures { IfOk result (λ c. app_of c ≡ the_command) }
{
    let why = with_flag(alloc, bare(alloc, "lus_audit"), "why")?;
    let program = with_required(alloc, why, "PROGRAM")?;
    with_required(alloc, program, "JOURNAL")
}

/// What the words after the program's own name ask for.
pub fn read_words<'a>(alloc: Global, words: &'a [String]) -> Result<Task<'a>, WordsError>
    ensures ok { IfOk result (λ task. asked (map string_bytes words.now) ≡ Some (task_seen task)) }
    ensures mistaken { result ≡ Err Mistaken → asked (map string_bytes words.now) ≡ None }
{
    let matches = matches(command(alloc)?, words)?;
    choose(&matches).ok_or(WordsError::Mistaken)
}

/// Journals are audited with a program.
fn choose<'a>(matches: &ArgMatches<'a>) -> Option<Task<'a>>
    ensures { option_map task_seen result ≡ said (rows_of (found_of matches.now)) }
{
    let program = value_of(matches, "PROGRAM")?;
    let journal = value_of(matches, "JOURNAL")?;
    Some(Task {
        is_why: is_set(matches, "why"),
        program,
        journal,
    })
}
