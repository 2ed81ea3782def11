//! Traces as CSV: a table for each instance, with a line for each column of its journal's table.

ghost use Rattle.std.specs.Prelude.{◌≡◌, ◌++◌, [], IfOk, OnOk, flat_map, map, string_bytes};
ghost use Rattle.lus_values.specs.View.{entry_of};
ghost use Rattle.lus_diagrams.specs.ColumnView.{column_seen};
ghost use Rattle.lus_traces.specs.Tables.{cell_text, following, head_text, joined, named_text, needs_quotes, others_text, quoted, shown};
ghost use Rattle.lus_traces.specs.Traces.{name_of};
ghost use Rattle.lus_printable.specs.Printable.{printable};

use crate::cutting::parts_between;
use crate::titles::title_of;
use crate::trace::Signal;
use lus_diagrams::{Column, Head};
use lus_printable::printable;
use lus_values::{Memory, Names, Value, push_value};
use std::alloc::{AllocError, Global};

/// Whether a text stands in a cell only between quotes.
fn needs_quotes(text: &str) -> bool
    ensures { result ≡ needs_quotes text.now }
{
    text.as_bytes().iter().any(|byte| b",\"\r\n".contains(byte))
}

/// Appends a text between quotes, with each quote in it doubled.
fn push_quoted(alloc: Global, out: &mut String, text: &str) -> Result<(), AllocError>
    ensures { OnOk result (string_bytes out.new ≡ string_bytes out.old ++ quoted text.now) }
{
    for part in &parts_between(alloc, text, '"')? {
        write!(out, "\"{part}\"")?;
    }
    Ok(())
}

fn push_cell(alloc: Global, out: &mut String, text: &str) -> Result<(), AllocError>
    ensures { OnOk result (string_bytes out.new ≡ string_bytes out.old ++ cell_text text.now) }
{
    if needs_quotes(text) {
        push_quoted(alloc, out, text)
    } else {
        out.push_str(text)
    }
}

/// Appends a cell behind others.
fn push_next(alloc: Global, out: &mut String, text: &str) -> Result<(), AllocError>
    ensures { OnOk result (string_bytes out.new ≡ string_bytes out.old ++ following text.now) }
{
    out.push_str(",")?;
    push_cell(alloc, out, text)
}

/// Appends an empty cell for each signal.
fn push_empty(alloc: Global, out: &mut String, signals: &[Signal]) -> Result<(), AllocError>
    ensures { OnOk result (string_bytes out.new ≡ string_bytes out.old ++ flat_map following (map (λ name. []) (map name_of signals.now))) }
{
    for _ in signals {
        push_next(alloc, out, "")?;
    }
    Ok(())
}

/// The text of an entry's cell, which is empty where it is absent.
fn shown(alloc: Global, names: &Names, entry: &Option<Value>) -> Result<String, Memory>
    ensures { IfOk result (λ text. string_bytes text ≡ shown names.now (entry_of entry.now)) }
{
    let mut text = String::new(alloc);
    if let Some(value) = entry {
        push_value(&mut text, value, names)?;
    }
    Ok(text)
}

/// Appends the cells of entries.
fn push_entries(
    alloc: Global,
    out: &mut String,
    names: &Names,
    entries: &[Option<Value>],
) -> Result<(), Memory>
    ensures { OnOk result (string_bytes out.new ≡ string_bytes out.old ++ flat_map following (map (shown names.now) (map entry_of entries.now))) }
{
    for entry in entries {
        push_next(alloc, out, &shown(alloc, names, entry)?)?;
    }
    Ok(())
}

/// Appends the cells of a column's line, but for the first.
fn push_others(
    alloc: Global,
    out: &mut String,
    names: &Names,
    signals: &[Signal],
    column: &Column,
) -> Result<(), Memory>
    ensures { OnOk result (string_bytes out.new ≡ string_bytes out.old ++ others_text names.now (map name_of signals.now) (column_seen column.now)) }
{
    let title = title_of(alloc, column.head)?;
    if let Head::Instant(_) = column.head {
        push_next(alloc, out, &title)?;
        push_next(alloc, out, "")?;
        push_entries(alloc, out, names, column.cells.items())
    } else {
        push_next(alloc, out, "")?;
        push_next(alloc, out, &title)?;
        push_empty(alloc, out, signals)?;
        Ok(())
    }
}

/// Appends the line of names of a table.
#[tactic(auto, unfolding(crate::specs::Tables::head_text))]
pub fn push_head(alloc: Global, out: &mut String, signals: &[Signal]) -> Result<(), AllocError>
    ensures { OnOk result (string_bytes out.new ≡ string_bytes out.old ++ head_text (map name_of signals.now)) }
{
    out.push_str("instance name,instant number,event name")?;
    for signal in signals {
        push_next(alloc, out, &signal.name)?;
    }
    out.push_str("\n")
}

/// Appends the line of a column, behind the instance's name.
fn push_column(
    alloc: Global,
    out: &mut String,
    names: &Names,
    instance: &str,
    signals: &[Signal],
    column: &Column,
) -> Result<(), Memory>
    ensures { OnOk result (string_bytes out.new ≡ string_bytes out.old ++ named_text names.now instance.now (map name_of signals.now) (column_seen column.now)) }
{
    push_cell(alloc, out, instance)?;
    push_others(alloc, out, names, signals, column)?;
    out.push_str("\n")?;
    Ok(())
}

/// Appends the lines of columns to a table of an instance of this name.
pub fn push_columns(
    alloc: Global,
    out: &mut String,
    names: &Names,
    instance: &str,
    signals: &[Signal],
    columns: &[Column],
) -> Result<(), Memory>
    ensures { OnOk result (string_bytes out.new
        ≡ string_bytes out.old ++ flat_map (named_text names.now (printable instance.now) (map name_of signals.now)) (map column_seen columns.now)) }
{
    let printed = printable(alloc, instance.as_bytes())?;
    for column in columns {
        push_column(alloc, out, names, &printed, signals, column)?;
    }
    Ok(())
}

/// Tables, with an empty line between two.
pub fn csv(alloc: Global, tables: Vec<String>) -> Result<String, AllocError>
    ensures { IfOk result (λ s. string_bytes s ≡ joined (map string_bytes tables.items)) }
{
    let mut others = tables.into_iter();
    let Some(mut out) = others.next() else {
        return Ok(String::new(alloc));
    };
    for table in others {
        out.push_str("\n")?;
        out.push_str(&table)?;
    }
    Ok(out)
}
