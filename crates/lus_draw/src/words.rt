//! The words of the command line.

ghost use Rattle.std.specs.Prelude.{◌≡◌, IfOk, Some, None, Err, map, option_map, string_bytes};
ghost use Rattle.clap.specs.Words.{app_of, found_of, rows_of};
ghost use Rattle.lus_cli.specs.declared.words.WordsError.TheVariants.{Mistaken};
ghost use Rattle.lus_sketches.specs.Selections.{selection_seen};
ghost use Rattle.lus_draw.specs.CommandLine.{asked, drawing, drawing_seen, flagged, format_in, has_parts, is_whole, page, part_in, place_in, said, selection_in, task_seen, the_command};

use clap::{ArgMatches, Command};
use lus_cli::{
    WordsError, bare, is_set, matches, value_of, with_flag, with_optional, with_required,
    with_value,
};
use lus_diagrams::Part;
use lus_sketches::{Selection, number};
use std::alloc::{AllocError, Global};

/// What is written of journals: tables as text, a picture of waves, a page of HTML, tables as CSV, or a value change dump.
#[derive(Clone, Copy)]
pub enum Format {
    Text,
    Waves,
    Html,
    Csv,
    Vcd,
}

/// What is to be drawn: in a format, of a part of a file of journals of a program's nodes, these signals.
#[derive(Clone, Copy)]
pub struct Drawing<'a> {
    pub format: Format,
    pub part: Part,
    pub selection: Selection<'a>,
    pub program: &'a str,
    pub journal: &'a str,
}

/// What the words ask for.
#[derive(Clone, Copy)]
pub enum Task<'a> {
    /// A page of the lines of a file of journals, without a program.
    Page(&'a str),
    Drawing(Drawing<'a>),
}

/// The command with its flags.
fn flagged<'a>(alloc: Global) -> Result<Command<'a>, AllocError>
    ensures { IfOk result (λ c. app_of c ≡ flagged) }
{
    let waves = with_flag(alloc, bare(alloc, "lus_draw"), "waves")?;
    let html = with_flag(alloc, waves, "html")?;
    let csv = with_flag(alloc, html, "csv")?;
    let vcd = with_flag(alloc, csv, "vcd")?;
    with_flag(alloc, vcd, "all")
}

fn command<'a>(alloc: Global) -> Result<Command<'a>, AllocError>
    ensures { IfOk result (λ c. app_of c ≡ the_command) }
{
    let from = with_value(alloc, flagged(alloc)?, "from")?;
    let to = with_value(alloc, from, "to")?;
    let signals = with_value(alloc, to, "signals")?;
    let file = with_required(alloc, signals, "FILE")?;
    with_optional(alloc, file, "JOURNAL")
}

/// What the words after the program's own name ask for.
pub fn read_words<'a>(alloc: Global, words: &'a [String]) -> Result<Task<'a>, WordsError>
    ensures ok { IfOk result (λ task. asked (map string_bytes words.now) ≡ Some (task_seen task)) }
    ensures mistaken { result ≡ Err Mistaken → asked (map string_bytes words.now) ≡ None }
{
    let matches = matches(command(alloc)?, words)?;
    choose(&matches).ok_or(WordsError::Mistaken)
}

/// The format that flags ask for: of more than one there is none.
fn format_in(matches: &ArgMatches<'_>) -> Option<Format>
    ensures { result ≡ format_in (rows_of (found_of matches.now)) }
{
    match (
        is_set(matches, "waves"),
        is_set(matches, "html"),
        is_set(matches, "csv"),
        is_set(matches, "vcd"),
    ) {
        (false, false, false, false) => Some(Format::Text),
        (true, false, false, false) => Some(Format::Waves),
        (false, true, false, false) => Some(Format::Html),
        (false, false, true, false) => Some(Format::Csv),
        (false, false, false, true) => Some(Format::Vcd),
        _ => None,
    }
}

/// The place that an option gives, or the other one where it isn't among the words.
fn place_in(other: u64, text: Option<&str>) -> Option<u64>
    ensures { result ≡ place_in other (option_map (λ t. t.now) text.entry) }
{
    match text {
        Some(text) => number(text),
        None => Some(other),
    }
}

/// The part that the words ask for, which is the whole where they don't say.
fn part_in(matches: &ArgMatches<'_>) -> Option<Part>
    ensures { result ≡ part_in (rows_of (found_of matches.now)) }
{
    let from = place_in(1, value_of(matches, "from"))?;
    let to = place_in(u64::MAX, value_of(matches, "to"))?;
    if 1 <= from && from <= to {
        Some(Part { from, to })
    } else {
        None
    }
}

/// The signals that the words ask for: not all and some by name. All are those of the name `*`.
fn selection_in<'a>(matches: &ArgMatches<'a>) -> Option<Selection<'a>>
    ensures { option_map selection_seen result ≡ selection_in (rows_of (found_of matches.now)) }
{
    match (is_set(matches, "all"), value_of(matches, "signals")) {
        (false, None) => Some(Selection::Formals),
        (true, None) => Some(Selection::Named("*")),
        (false, Some(names)) => Some(Selection::Named(names)),
        (true, Some(_)) => None,
    }
}

fn is_whole(part: Part) -> bool
    ensures { result ≡ is_whole part }
{
    part.from == 1 && part.to == u64::MAX
}

/// Whether a format shows parts.
fn has_parts(format: Format) -> bool
    ensures { result ≡ has_parts format }
{
    match format {
        Format::Text | Format::Waves | Format::Csv => true,
        Format::Html | Format::Vcd => false,
    }
}

/// Journals are drawn in parts in the formats that have them.
fn drawing_task(wanted: Drawing<'_>) -> Option<Task<'_>>
    ensures { option_map task_seen result ≡ drawing (drawing_seen wanted.entry) }
{
    if is_whole(wanted.part) || has_parts(wanted.format) {
        Some(Task::Drawing(wanted))
    } else {
        None
    }
}

/// Without a program there is only a page, of all that journals say.
fn page<'a>(
    format: Format,
    part: Part,
    selection: Selection<'a>,
    journal: &'a str,
) -> Option<Task<'a>>
    ensures { option_map task_seen result ≡ page format part (selection_seen selection.entry) journal.entry.now }
{
    match (format, selection) {
        (Format::Html, Selection::Formals) if is_whole(part) => Some(Task::Page(journal)),
        _ => None,
    }
}

/// The first file is the program's where a second one is named, else that of the journals.
fn choose<'a>(matches: &ArgMatches<'a>) -> Option<Task<'a>>
    ensures { option_map task_seen result ≡ said (rows_of (found_of matches.now)) }
{
    let format = format_in(matches)?;
    let part = part_in(matches)?;
    let selection = selection_in(matches)?;
    let file = value_of(matches, "FILE")?;
    match value_of(matches, "JOURNAL") {
        Some(journal) => drawing_task(Drawing {
            format,
            part,
            selection,
            program: file,
            journal,
        }),
        None => page(format, part, selection, file),
    }
}
