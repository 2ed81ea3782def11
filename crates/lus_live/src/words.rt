//! The words of the command line.

ghost use Rattle.std.specs.Prelude.{◌≡◌, IfOk, Some, None, Err, codes, map, option_map, string_bytes};
ghost use Rattle.clap.specs.Words.{app_of, first_of, found_of, rows_of};
ghost use Rattle.lus_cli.specs.CommandLine.{is_set};
ghost use Rattle.lus_cli.specs.declared.words.WordsError.TheVariants.{Mistaken};
ghost use Rattle.lus_live.specs.CommandLine.{asked, caller_of, flagged, form_of, has_journal, said, sync_of, task_seen, the_command, writes_file};

use crate::limits::{Limits, limits_in, with_limits};
use clap::{ArgMatches, Command};
use lus_cli::{
    WordsError, bare, is_set, matches, value_of, with_flag, with_optional, with_required,
    with_value,
};
use lus_scripts::is_name;
use std::alloc::{AllocError, Global};

/// What is told of calls.
#[derive(Clone, Copy)]
pub enum Form {
    /// The lines of a journal.
    Journal,
    /// Each reply as an object of JSON.
    Json,
    /// The outputs of each step as a record of CSV, as which the steps are read.
    Csv,
}

/// What the words ask for: lines that are played on a node of a program, which is named by its file.
#[derive(Clone, Copy)]
pub struct Task<'a> {
    pub program: &'a str,
    pub node: &'a str,
    pub caller: &'a str,
    pub form: Form,
    /// The file of a journal that the run goes on in.
    pub journal: Option<&'a str>,
    /// Whether that is synced before anything is told.
    pub is_synced: bool,
    /// What the node may cost.
    pub limits: Limits,
}

/// The command with its flags and options.
fn flagged<'a>(alloc: Global) -> Result<Command<'a>, AllocError>
    ensures { IfOk result (λ c. app_of c ≡ flagged) }
{
    let json = with_flag(alloc, bare(alloc, "lus_live"), "json")?;
    let csv = with_flag(alloc, json, "csv")?;
    let sync = with_flag(alloc, csv, "sync")?;
    let caller = with_value(alloc, sync, "caller")?;
    with_limits(alloc, caller)
}

fn command<'a>(alloc: Global) -> Result<Command<'a>, AllocError>
    ensures { IfOk result (λ c. app_of c ≡ the_command) }
{
    let program = with_required(alloc, flagged(alloc)?, "PROGRAM")?;
    let node = with_required(alloc, program, "NODE")?;
    with_optional(alloc, node, "JOURNAL")
}

/// What the words after the program's own name ask for.
pub fn read_words<'a>(alloc: Global, words: &'a [String]) -> Result<Task<'a>, WordsError>
    ensures ok { IfOk result (λ task. asked (map string_bytes words.now) ≡ Some (task_seen task)) }
    ensures mistaken { result ≡ Err Mistaken → asked (map string_bytes words.now) ≡ None }
{
    let matches = matches(command(alloc)?, words)?;
    choose(&matches).ok_or(WordsError::Mistaken)
}

/// Of the two flags there is one at most.
fn form_in(is_json: bool, is_csv: bool) -> Option<Form>
    ensures { result ≡ form_of is_json is_csv }
{
    match (is_json, is_csv) {
        (false, false) => Some(Form::Journal),
        (true, false) => Some(Form::Json),
        (false, true) => Some(Form::Csv),
        (true, true) => None,
    }
}

/// Whether the run itself writes on in a journal.
pub(crate) fn writes_file(form: Form, journal: Option<&str>) -> bool
    ensures { result ≡ writes_file form (option_map (λ t. t.now) journal.entry) }
{
    match form {
        Form::Journal => false,
        Form::Json | Form::Csv => journal.is_some(),
    }
}

/// Whether a journal is written.
fn has_journal(form: Form, journal: Option<&str>) -> bool
    ensures { result ≡ has_journal form (option_map (λ t. t.now) journal.entry) }
{
    match form {
        Form::Journal => true,
        Form::Json | Form::Csv => journal.is_some(),
    }
}

/// The name of the one caller, which only a journal has.
fn caller_in<'a>(matches: &ArgMatches<'a>, form: Form, journal: Option<&'a str>) -> Option<&'a str>
    ensures { option_map (λ t. t.now) result
        ≡ caller_of form (option_map (λ t. t.now) journal.entry) (first_of (codes "caller") (rows_of (found_of matches.now))) }
{
    match value_of(matches, "caller") {
        None => Some("user"),
        Some(name) if has_journal(form, journal) && is_name(name) => Some(name),
        Some(_) => None,
    }
}

/// Whether a journal is synced, which only one is that the run itself writes.
fn sync_in(is_synced: bool, form: Form, journal: Option<&str>) -> Option<bool>
    ensures { result ≡ sync_of form (option_map (λ t. t.now) journal.entry) is_synced }
{
    if !is_synced || writes_file(form, journal) {
        Some(is_synced)
    } else {
        None
    }
}

/// A node is asked for with its program.
fn choose<'a>(matches: &ArgMatches<'a>) -> Option<Task<'a>>
    ensures { option_map task_seen result ≡ said (rows_of (found_of matches.now)) }
{
    let limits = limits_in(matches)?;
    let form = form_in(is_set(matches, "json"), is_set(matches, "csv"))?;
    let journal = value_of(matches, "JOURNAL");
    let is_synced = sync_in(is_set(matches, "sync"), form, journal)?;
    let caller = caller_in(matches, form, journal)?;
    let program = value_of(matches, "PROGRAM")?;
    let node = value_of(matches, "NODE")?;
    Some(Task {
        program,
        node,
        caller,
        form,
        journal,
        is_synced,
        limits,
    })
}
