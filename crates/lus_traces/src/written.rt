//! Traces as lines of text.

use crate::titles::{push_early, title_of};
use crate::trace::{Signal, Trace};
use crate::values::entry_text;
use lus_diagrams::{Column, is_instant};
use lus_printable::printable;
use lus_values::{Memory, Names};
use std::alloc::{AllocError, Global};

/// How many characters a line has room for.
const ROOM: usize = 100;

/// A column as text: what stands above it, what in its rows, and how wide the longest of these is.
#[derive(Drop)]
struct Written {
    cells: Vec<String>,
    width: usize,
}

/// A column as text: a bar in each row where it is no instant.
fn written_column(
    alloc: Global,
    names: &Names,
    signals: &[Signal],
    column: &Column,
) -> Result<Written, Memory> {
    let mut cells = Vec::new(alloc);
    cells.push(title_of(alloc, column.head)?)?;
    if is_instant(column.head) {
        for entry in column.cells.items() {
            cells.push(entry_text(alloc, names, entry.as_ref())?)?;
        }
    } else {
        for _ in signals {
            cells.push(String::from_str(alloc, "|")?)?;
        }
    }
    let mut width = 0usize;
    for cell in &cells {
        width = width.max(cell.len());
    }
    Ok(Written { cells, width })
}

/// Appends a line of titles, and the rows below it. Labels, that of the titles first, stand before them, so wide.
fn push_band(
    out: &mut String,
    labels: &[&str],
    wide: usize,
    columns: &[Written],
) -> Result<(), AllocError> {
    out.push_str("\n")?;
    for (row, label) in labels.iter().enumerate() {
        write!(out, "{label:<wide$}")?;
        for column in columns {
            if let Some(cell) = column.cells.get(row) {
                let width = column.width;
                write!(out, "  {cell:>width$}")?;
            }
        }
        out.push_str("\n")?;
    }
    Ok(())
}

/// Appends columns in as many bands as they need, each of one column at least.
fn push_bands(
    alloc: Global,
    out: &mut String,
    signals: &[Signal],
    columns: &[Written],
) -> Result<(), AllocError> {
    let mut labels: Vec<&str> = Vec::new(alloc);
    labels.push("instant")?;
    let mut wide = "instant".len();
    for signal in signals {
        labels.push(signal.label.as_str())?;
        wide = wide.max(signal.label.len());
    }
    let (mut from, mut used) = (0, wide);
    for (place, column) in columns.iter().enumerate() {
        let width = column.width.saturating_add(2);
        if from < place && used.saturating_add(width) > ROOM {
            push_band(out, &labels, wide, &columns[from..place])?;
            (from, used) = (place, wide);
        }
        used = used.saturating_add(width);
    }
    if from < columns.len() {
        push_band(out, &labels, wide, &columns[from..])?;
    }
    Ok(())
}

/// Appends a trace: its instance and node, its table in lines of at most 100 characters, where its columns have room in them, and the
/// lines of its refused calls.
fn push_trace(alloc: Global, out: &mut String, names: &Names, trace: &Trace) -> Result<(), Memory> {
    let heading = &trace.heading;
    let instance = printable(alloc, heading.instance.as_bytes())?;
    write!(out, "instance {instance} {}", heading.node)?;
    push_early(out, heading)?;
    out.push_str("\n")?;
    let mut columns = Vec::new(alloc);
    for column in &trace.columns {
        columns.push(written_column(alloc, names, &trace.signals, column)?)?;
    }
    push_bands(alloc, out, &trace.signals, &columns)?;
    if !trace.refusals.is_empty() {
        out.push_str("\n")?;
    }
    for refusal in &trace.refusals {
        write!(out, "{}\n", printable(alloc, &refusal.line)?)?;
    }
    Ok(())
}

/// Traces as text, with an empty line between two.
pub fn text(alloc: Global, names: &Names, traces: &[Trace]) -> Result<String, Memory> {
    let mut out = String::new(alloc);
    for (place, trace) in traces.iter().enumerate() {
        if place > 0 {
            out.push_str("\n")?;
        }
        push_trace(alloc, &mut out, names, trace)?;
    }
    Ok(out)
}
