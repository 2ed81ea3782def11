//! Why requests were refused, as far as the request alone shows it.

use crate::inputs::push_presence;
use lus_culprits::push_shape;
use lus_program::Program;
use lus_requests::{Entry, Reply, Request, Why};
use lus_values::{Memory, Names, Row};
use std::alloc::Global;
use std::slice;

/// The most rows of a burst.
const MOST_ROWS: usize = 1000;

/// Why a request was refused, in the journal's own word.
pub fn why_word(why: Why) -> &'static str {
    match why {
        Why::Shape => "shape",
        Why::Presence => "presence",
        Why::Fault => "fault",
        Why::NoSave => "nosave",
    }
}

/// Appends the reason of a row's refusal that isn't for a fault.
fn push_row_reason(
    text: &mut String,
    alloc: Global,
    program: &Program,
    names: &Names,
    node: usize,
    why: Why,
    inputs: &Row,
) -> Result<(), Memory> {
    match (program.nodes.get(node), why) {
        (Some(found), Why::Shape) => push_shape(text, alloc, program, names, found, inputs),
        (Some(found), Why::Presence) => push_presence(text, names, found, inputs),
        _ => Ok(()),
    }
}

/// Appends why rows were refused, and of a burst which: the first of which there is something to say.
fn push_rows_reason(
    text: &mut String,
    alloc: Global,
    program: &Program,
    names: &Names,
    node: usize,
    why: Why,
    rows: &[Row],
    is_burst: bool,
) -> Result<(), Memory> {
    let mut row = 0u64;
    for inputs in rows {
        row = row.saturating_add(1);
        let mut reason = String::new(alloc);
        push_row_reason(&mut reason, alloc, program, names, node, why, inputs)?;
        if !reason.is_empty() {
            if is_burst {
                write!(text, "row {row}, ")?;
            }
            text.push_str(&reason)?;
            return Ok(());
        }
    }
    Ok(())
}

/// Appends why a request was refused. Which operation has no value the steps before it decide too, so of that the kind alone is said.
pub fn push_refusal(
    text: &mut String,
    alloc: Global,
    program: &Program,
    names: &Names,
    node: usize,
    request: &Request,
    why: Why,
) -> Result<(), Memory> {
    match (request, why) {
        (_, Why::Fault) => {
            text.push_str("an operation has no value, by a division by zero or an overflow")?
        }
        (Request::Step(inputs), _) => {
            let rows = slice::from_ref(inputs);
            push_rows_reason(text, alloc, program, names, node, why, rows, false)?;
        }
        (Request::Burst(rows), _) if rows.items().len() > MOST_ROWS => {
            let count = rows.items().len();
            write!(text, "the burst has {count} rows, and may have {MOST_ROWS}")?;
        }
        (Request::Burst(rows), _) => {
            push_rows_reason(text, alloc, program, names, node, why, rows.items(), true)?;
        }
        (Request::Restore(slot), Why::NoSave) => {
            write!(text, "nothing is saved in slot {slot}")?;
        }
        (Request::Save(slot) | Request::Restore(slot), _) => {
            write!(text, "there is no slot {slot}, slots are 0 to 7")?;
        }
        (Request::Reset, _) => {}
    }
    Ok(())
}

/// Appends why the inputs of a request are refused whatever came before: for their shape, or else for their presence. Where they aren't,
/// it appends nothing.
pub fn push_unfit(
    text: &mut String,
    alloc: Global,
    program: &Program,
    names: &Names,
    node: usize,
    request: &Request,
) -> Result<(), Memory> {
    for why in &[Why::Shape, Why::Presence] {
        let mut reason = String::new(alloc);
        match request {
            Request::Step(_) | Request::Burst(_) => {
                push_refusal(&mut reason, alloc, program, names, node, request, *why)?;
            }
            Request::Reset | Request::Save(_) | Request::Restore(_) => {}
        }
        if !reason.is_empty() {
            let word = why_word(*why);
            write!(text, "refused {word}: {reason}")?;
            return Ok(());
        }
    }
    Ok(())
}

/// Why an entry's request was refused, in the line of a note that has the number of the line it was on: nothing, where it wasn't. No
/// step before it is known.
pub fn note_of(
    alloc: Global,
    program: &Program,
    names: &Names,
    node: usize,
    line: u64,
    entry: &Entry,
) -> Result<String, Memory> {
    let mut text = String::new(alloc);
    if let Reply::Refused(why) = &entry.reply {
        let word = why_word(*why);
        write!(text, "note: line {line} is refused {word}: ")?;
        push_refusal(&mut text, alloc, program, names, node, &entry.request, *why)?;
        text.push_str("\n")?;
    }
    Ok(text)
}
