//! The words of the command line.

ghost use Rattle.std.specs.Prelude.{◌≡◌, IfOk, Some, None, Err, map, option_map, string_bytes};
ghost use Rattle.clap.specs.Words.{app_of, found_of, rows_of};
ghost use Rattle.lus_cli.specs.declared.words.WordsError.TheVariants.{Mistaken};
ghost use Rattle.lus_many.specs.CommandLine.{asked, flagged, session_of, sessions_seen, said, task_seen, the_command};

use clap::{ArgMatches, Command};
use lus_cli::{
    WordsError, bare, is_set, matches, value_of, with_flag, with_optional, with_required,
    with_value,
};
use lus_live::{Limits, limits_in, with_limits};
use lus_scripts::is_name;
use std::alloc::{AllocError, Global};

/// What the words ask for: instances of a node of a program, which is named by its file, and how it is answered.
#[derive(Clone, Copy)]
pub struct Task<'a> {
    pub program: &'a str,
    pub node: &'a str,
    /// Whether answers are objects of JSON, in place of a log's lines.
    pub is_json: bool,
    /// The log that is gone on in, if one is.
    pub session: Option<Session<'a>>,
    /// What the node may cost.
    pub limits: Limits,
}

/// A log that is gone on in, by the name of its file, who calls, if it is one caller, and whether the log is synced before answers.
#[derive(Clone, Copy)]
pub struct Session<'a> {
    pub log: &'a str,
    pub caller: Option<&'a str>,
    pub is_synced: bool,
}

/// Whether many instances are asked for.
pub fn is_many(words: &[String]) -> bool {
    words.iter().any(|word| word.as_str() == "--many")
}

/// The command with its flags and options.
fn flagged<'a>(alloc: Global) -> Result<Command<'a>, AllocError>
    ensures { IfOk result (λ c. app_of c ≡ flagged) }
{
    let many = with_flag(alloc, bare(alloc, "lus_live"), "many")?;
    let json = with_flag(alloc, many, "json")?;
    let sync = with_flag(alloc, json, "sync")?;
    let caller = with_value(alloc, sync, "caller")?;
    with_limits(alloc, caller)
}

fn command<'a>(alloc: Global) -> Result<Command<'a>, AllocError>
    ensures { IfOk result (λ c. app_of c ≡ the_command) }
{
    let program = with_required(alloc, flagged(alloc)?, "PROGRAM")?;
    let node = with_required(alloc, program, "NODE")?;
    with_optional(alloc, node, "LOG")
}

/// What the words after the program's own name ask for.
pub fn read_words<'a>(alloc: Global, words: &'a [String]) -> Result<Task<'a>, WordsError>
    ensures ok { IfOk result (λ task. asked (map string_bytes words.now) ≡ Some (task_seen task)) }
    ensures mistaken { result ≡ Err Mistaken → asked (map string_bytes words.now) ≡ None }
{
    let matches = matches(command(alloc)?, words)?;
    choose(&matches).ok_or(WordsError::Mistaken)
}

/// The log of a file, and perhaps a caller and syncs, which are asked for only beside it.
fn choose_session<'a>(
    is_synced: bool,
    log: Option<&'a str>,
    caller: Option<&'a str>,
) -> Option<Option<Session<'a>>>
    ensures { option_map sessions_seen result ≡ session_of is_synced (option_map (λ t. t.now) log.entry) (option_map (λ t. t.now) caller.entry) }
{
    match (is_synced, log, caller) {
        (false, None, None) => Some(None),
        (true, None, None) => None,
        (_, None, Some(_)) => None,
        (_, Some(log), None) => Some(Some(Session {
            log,
            caller,
            is_synced,
        })),
        (_, Some(log), Some(name)) if is_name(name) => Some(Some(Session {
            log,
            caller,
            is_synced,
        })),
        (_, Some(_), Some(_)) => None,
    }
}

/// A node is asked for with its program.
fn choose<'a>(matches: &ArgMatches<'a>) -> Option<Task<'a>>
    ensures { option_map task_seen result ≡ said (rows_of (found_of matches.now)) }
{
    let program = value_of(matches, "PROGRAM")?;
    let node = value_of(matches, "NODE")?;
    let is_json = is_set(matches, "json");
    let (log, caller) = (value_of(matches, "LOG"), value_of(matches, "caller"));
    let session = choose_session(is_set(matches, "sync"), log, caller)?;
    let limits = limits_in(matches)?;
    Some(Task {
        program,
        node,
        is_json,
        session,
        limits,
    })
}
