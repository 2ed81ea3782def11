//! What is said of a claim: that it held, or where it fails.

ghost use Rattle.std.specs.Prelude.{◌≡◌, ◌++◌, ◌∷◌, [], IfOk, OnOk, map, string_bytes};
ghost use Rattle.csv.specs.Records.{fields_of};
ghost use Rattle.lus_records.specs.Outputs.{record_text};
ghost use Rattle.lus_test.specs.Failing.{expected, failing_row, failing_table};

use crate::failing::{Failure, Found};
use crate::filling::push_record;
use crate::options::Wanted;
use crate::trial::Subject;
use csv::ByteRecord;
use lus_live_instance::lus_machine::Why;
use lus_records::cells_of;
use lus_refusals::{push_refusal, why_word};
use lus_values::Memory;
use std::alloc::Global;

/// Appends a record with one cell more.
fn push_with(
    alloc: Global,
    text: &mut Vec<u8>,
    line: &ByteRecord,
    last: &[u8],
) -> Result<(), Memory>
    ensures { OnOk result (text.new.items ≡ text.old.items ++ record_text (fields_of line.now ++ last.now ∷ [])) }
{
    let mut cells = cells_of(alloc, line)?;
    cells.push(last)?;
    push_record(alloc, text, &cells)
}

/// What is expected of the claim in a row: that it is true in the last one, and nothing before.
fn expected(last: usize, row: usize) -> &'static [u8]
    ensures { result.now ≡ expected last row }
{
    if row == last { b"true" } else { b"" }
}

/// Appends the record of a row, if it isn't behind the last one.
fn push_row(
    alloc: Global,
    text: &mut Vec<u8>,
    last: usize,
    row: usize,
    line: &ByteRecord,
) -> Result<(), Memory>
    ensures { OnOk result (text.new.items ≡ text.old.items ++ failing_row last row (fields_of line.now)) }
{
    if row <= last {
        return push_with(alloc, text, line, expected(last, row));
    }
    Ok(())
}

/// The table of a run in which a claim fails, up to the row in which it does.
pub(crate) fn failing_table(
    alloc: Global,
    names: &ByteRecord,
    claim: &str,
    last: usize,
    rows: &[ByteRecord],
) -> Result<Vec<u8>, Memory>
    ensures { IfOk result (λ v. v.items ≡ failing_table (fields_of names.now) claim.now last (map fields_of rows.now)) }
{
    let mut text = Vec::new(alloc);
    push_with(alloc, &mut text, names, claim.as_bytes())?;
    for (row, line) in rows.iter().enumerate() {
        push_row(alloc, &mut text, last, row, line)?;
    }
    Ok(text)
}

/// A count of things, as `1 run` and `7 runs`.
fn push_count(text: &mut String, count: u64, thing: &str) -> Result<(), Memory> {
    let s = if count == 1 { "" } else { "s" };
    write!(text, "{count} {thing}{s}")?;
    Ok(())
}

/// That a claim held.
pub(crate) fn held_line(alloc: Global, wanted: Wanted<'_>) -> Result<String, Memory> {
    let mut text = String::from_str(alloc, wanted.program)?;
    text.push_str(": ")?;
    text.push_str(wanted.claim)?;
    text.push_str(" held in ")?;
    push_count(&mut text, wanted.runs, "run")?;
    text.push_str(" of ")?;
    push_count(&mut text, wanted.steps, "instant")?;
    let seed = wanted.seed;
    write!(text, " (seed {seed})\n")?;
    Ok(text)
}

/// Appends why a run fails in its last step: for a refusal, or since the claim is false.
fn push_why(
    text: &mut String,
    subject: &Subject<'_>,
    claim: &str,
    failure: &Failure,
    why: Option<Why>,
) -> Result<(), Memory> {
    let (Some(why), Some(step)) = (why, failure.trial.steps.get(failure.row)) else {
        text.push_str(claim)?;
        text.push_str(" is false")?;
        return Ok(());
    };
    text.push_str("refused ")?;
    text.push_str(why_word(why))?;
    text.push_str(": ")?;
    push_refusal(
        text,
        subject.alloc,
        subject.program.source(),
        subject.program.names(),
        subject.node.0 as usize,
        step,
        why,
    )
}

/// Where a claim fails: in which run of which seed, at which of its instants, and in how many rows of the table that is shown.
pub(crate) fn failing_line(
    subject: &Subject<'_>,
    wanted: Wanted<'_>,
    run: u64,
    row: usize,
    shrunk: &Failure,
) -> Result<String, Memory> {
    let mut text = String::from_str(subject.alloc, wanted.program)?;
    text.push_str(": ")?;
    let seed = wanted.seed;
    let instant = row.saturating_add(1);
    write!(text, "run {run} of seed {seed}, instant {instant}: ")?;
    push_why(&mut text, subject, wanted.claim, shrunk, shrunk.why())?;
    text.push_str("; shrunk to ")?;
    push_count(&mut text, shrunk.numbers.len() as u64, "row")?;
    text.push_str("\n")?;
    Ok(text)
}
