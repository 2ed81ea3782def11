//! The words of the command line with `--many`.

ghost use Rattle.std.specs.Prelude.{◌≡◌, IfOk, Some, None, Err, map, option_map, string_bytes};
ghost use Rattle.clap.specs.Words.{app_of, found_of, rows_of};
ghost use Rattle.lus_cli.specs.declared.words.WordsError.TheVariants.{Mistaken};
ghost use Rattle.lus_audit.specs.Logs.{asked, said, task_seen, the_command};

use clap::{ArgMatches, Command};
use lus_cli::{WordsError, bare, is_set, matches, value_of, with_flag, with_required};
use std::alloc::{AllocError, Global};

/// What the words ask for: an audit of a file's log, of instances of a node of a program, and perhaps why requests were refused.
#[derive(Clone, Copy)]
pub struct LogTask<'a> {
    pub is_why: bool,
    pub program: &'a str,
    pub node: &'a str,
    pub log: &'a str,
}

fn command<'a>(alloc: Global) -> Result<Command<'a>, AllocError>
    ensures { IfOk result (λ c. app_of c ≡ the_command) }
{
    let many = with_flag(alloc, bare(alloc, "lus_audit"), "many")?;
    let why = with_flag(alloc, many, "why")?;
    let program = with_required(alloc, why, "PROGRAM")?;
    let node = with_required(alloc, program, "NODE")?;
    with_required(alloc, node, "LOG")
}

/// What the words after the program's own name ask for.
pub fn read_log_words<'a>(alloc: Global, words: &'a [String]) -> Result<LogTask<'a>, WordsError>
    ensures ok { IfOk result (λ task. asked (map string_bytes words.now) ≡ Some (task_seen task)) }
    ensures mistaken { result ≡ Err Mistaken → asked (map string_bytes words.now) ≡ None }
{
    let matches = matches(command(alloc)?, words)?;
    choose(&matches).ok_or(WordsError::Mistaken)
}

/// A log is audited with a node of a program.
fn choose<'a>(matches: &ArgMatches<'a>) -> Option<LogTask<'a>>
    ensures { option_map task_seen result ≡ said (rows_of (found_of matches.now)) }
{
    let program = value_of(matches, "PROGRAM")?;
    let node = value_of(matches, "NODE")?;
    let log = value_of(matches, "LOG")?;
    Some(LogTask {
        is_why: is_set(matches, "why"),
        program,
        node,
        log,
    })
}
