//! The words of the command line.

ghost use Rattle.std.specs.Prelude.{◌≡◌, IfOk, Some, None, Err, map, option_map, codes, string_bytes};
ghost use Rattle.clap.specs.Words.{all_of, app_of, found_of, rows_of};
ghost use Rattle.lus_cli.specs.declared.words.WordsError.TheVariants.{Mistaken};
ghost use Rattle.lus_formatter.specs.CommandLine.{asked, flagged, mode_in, said, task_seen, the_command};

use clap::{Arg, ArgAction, ArgMatches, Command};
use lus_cli::{WordsError, bare, is_set, matches, with_flag};
use std::alloc::{AllocError, Global};

/// What is done with what a source becomes.
#[derive(Clone, Copy, PartialEq, Eq)]
pub enum Mode {
    /// It is written to the output.
    Print,
    /// A file that would change is named on the output.
    Check,
    /// It takes the place of the file, where it differs.
    Write,
}

/// What is done with the files that the words name.
#[derive(Drop)]
pub struct Task<'a> {
    pub mode: Mode,
    matches: ArgMatches<'a>,
}

impl<'a> Task<'a> {
    /// The names of the files, in the order of the words.
    pub fn files(&self) -> Option<&[&'a str]>
        ensures { option_map (λ names. map (λ name. name.now) names.now) result ≡ all_of (codes "FILE") (rows_of (found_of self.now.matches)) }
    {
        self.matches.get_strs("FILE")
    }
}

/// The command with its flags.
fn flagged<'a>(alloc: Global) -> Result<Command<'a>, AllocError>
    ensures { IfOk result (λ c. app_of c ≡ flagged) }
{
    let check = with_flag(alloc, bare(alloc, "lus_format"), "check")?;
    with_flag(alloc, check, "write")
}

/// A file at least has to be named.
fn command<'a>(alloc: Global) -> Result<Command<'a>, AllocError>
    ensures { IfOk result (λ c. app_of c ≡ the_command) }
{
    let files = Arg::new(alloc, "FILE")
        .required(true)
        .action(ArgAction::Append);
    flagged(alloc)?.arg(files)
}

/// What the words after the program's own name ask for.
pub fn read_words<'a>(alloc: Global, words: &'a [String]) -> Result<Task<'a>, WordsError>
    ensures ok { IfOk result (λ task. asked (map string_bytes words.now) ≡ Some (task_seen task)) }
    ensures mistaken { result ≡ Err Mistaken → asked (map string_bytes words.now) ≡ None }
{
    let matches = matches(command(alloc)?, words)?;
    choose(matches).ok_or(WordsError::Mistaken)
}

/// What the flags ask for: both together ask for nothing.
fn mode_in(matches: &ArgMatches<'_>) -> Option<Mode>
    ensures { result ≡ mode_in (rows_of (found_of matches.now)) }
{
    match (is_set(matches, "check"), is_set(matches, "write")) {
        (false, false) => Some(Mode::Print),
        (true, false) => Some(Mode::Check),
        (false, true) => Some(Mode::Write),
        (true, true) => None,
    }
}

fn choose<'a>(matches: ArgMatches<'a>) -> Option<Task<'a>>
    ensures { option_map task_seen result ≡ said (rows_of (found_of matches.entry)) }
{
    let mode = mode_in(&matches)?;
    Some(Task { mode, matches })
}
