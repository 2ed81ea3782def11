//! The words of the command line.

ghost use Rattle.std.specs.Prelude.{◌≡◌, IfOk, Some, None, Err, map, option_map, codes, string_bytes};
ghost use Rattle.clap.specs.Words.{all_of, app_of, found_of, rows_of};
ghost use Rattle.lus_cli.specs.CommandLine.{is_set};
ghost use Rattle.lus_cli.specs.declared.words.WordsError.TheVariants.{Mistaken};
ghost use Rattle.lus_test.specs.CommandLine.{asked, flagged, optioned, said, task_seen, the_command};

use clap::{Arg, ArgAction, ArgMatches, Command};
use lus_cli::{WordsError, bare, is_set, matches, value_of, with_flag, with_required, with_value};
use std::alloc::{AllocError, Global};

/// What is done with tables beside trying them.
#[derive(Clone, Copy)]
pub struct Mode {
    /// The one table is written anew, with the outputs that come.
    pub is_written: bool,
    /// The journal of the run of the one table is written.
    pub is_journal: bool,
    /// The branches that the runs take are told,
    pub is_covered: bool,
    /// as objects of JSON.
    pub is_json: bool,
}

impl Mode {
    /// Whether only one table can be asked for.
    pub(crate) fn is_single(self) -> bool {
        self.is_written || self.is_journal
    }

    /// Whether the output is for programs, so that what is said of tables stands beside the faults.
    pub(crate) fn is_quiet(self) -> bool {
        self.is_journal || self.is_json
    }

    /// Whether these go together: one thing is written, and branches are told as JSON where they are told.
    pub(crate) fn is_sound(self) -> bool {
        let is_one = !(self.is_written && self.is_journal);
        let is_told = !(self.is_covered && self.is_single());
        is_one && is_told && (self.is_covered || !self.is_json)
    }
}

/// What the words ask for: tables on which a node of a program is tried, or which are written anew. All are named by their files.
#[derive(Drop)]
pub struct Task<'a> {
    pub program: &'a str,
    /// The node's name, where it isn't that of each table.
    pub node: Option<&'a str>,
    pub mode: Mode,
    matches: ArgMatches<'a>,
}

impl<'a> Task<'a> {
    /// The names of the tables, in the order of the words.
    pub fn tables(&self) -> Option<&[&'a str]>
        ensures { option_map (λ names. map (λ name. name.now) names.now) result ≡ all_of (codes "TABLE") (rows_of (found_of self.now.matches)) }
    {
        self.matches.get_strs("TABLE")
    }
}

/// The command with its flags.
fn flagged<'a>(alloc: Global) -> Result<Command<'a>, AllocError>
    ensures { IfOk result (λ c. app_of c ≡ flagged) }
{
    let write = with_flag(alloc, bare(alloc, "lus_test"), "write")?;
    let journal = with_flag(alloc, write, "journal")?;
    let coverage = with_flag(alloc, journal, "coverage")?;
    with_flag(alloc, coverage, "json")
}

/// The command with its options.
fn optioned<'a>(alloc: Global) -> Result<Command<'a>, AllocError>
    ensures { IfOk result (λ c. app_of c ≡ optioned) }
{
    let node = with_value(alloc, flagged(alloc)?, "node")?;
    with_required(alloc, node, "PROGRAM")
}

/// A table at least has to be named.
fn command<'a>(alloc: Global) -> Result<Command<'a>, AllocError>
    ensures { IfOk result (λ c. app_of c ≡ the_command) }
{
    let tables = Arg::new(alloc, "TABLE")
        .required(true)
        .action(ArgAction::Append);
    optioned(alloc)?.arg(tables)
}

/// What the words after the program's own name ask for.
pub fn read_words<'a>(alloc: Global, words: &'a [String]) -> Result<Task<'a>, WordsError>
    ensures ok { IfOk result (λ task. asked (map string_bytes words.now) ≡ Some (task_seen task)) }
    ensures mistaken { result ≡ Err Mistaken → asked (map string_bytes words.now) ≡ None }
{
    let matches = matches(command(alloc)?, words)?;
    choose(matches).ok_or(WordsError::Mistaken)
}

/// What is done with the tables that the words name.
fn mode_in(matches: &ArgMatches<'_>) -> Mode
    ensures { result.is_written ≡ is_set (codes "write") (rows_of (found_of matches.now)) }
{
    Mode {
        is_written: is_set(matches, "write"),
        is_journal: is_set(matches, "journal"),
        is_covered: is_set(matches, "coverage"),
        is_json: is_set(matches, "json"),
    }
}

fn choose<'a>(matches: ArgMatches<'a>) -> Option<Task<'a>>
    ensures { option_map task_seen result ≡ said (rows_of (found_of matches.entry)) }
{
    let program = value_of(&matches, "PROGRAM")?;
    let node = value_of(&matches, "node");
    let mode = mode_in(&matches);
    Some(Task {
        program,
        node,
        mode,
        matches,
    })
}
