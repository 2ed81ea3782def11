//! Head lines: the names of columns.

ghost use Rattle.std.specs.Prelude.{◌≡◌, ◌++◌, ◌∷◌, [], true, false, IfOk, not, map, option_map, string_bytes};
ghost use Rattle.lus_scripts.specs.Forms.{each};
ghost use Rattle.lus_scripts.specs.Scripts.{stands_in};
ghost use Rattle.lus_records.specs.Heads.{HasReadHead, distinct, head_in, head_of, known};

use crate::cells::{cells_of, record_of};
use indexmap::IndexSet;
use lus_devices::{Sink, Source, write_all};
use lus_faults::nearest;
use lus_lines::{Reading, read_line};
use lus_play::PlayError;
use lus_refusals::lus_culprits::{names_of, push_name, push_names, push_unknown, sentence};
use lus_values::Memory;
use std::alloc::Global;

/// The column of a name.
fn known<'c>(columns: &'c [String], name: &[u8]) -> Option<&'c str>
    ensures { option_map (λ t. t.now) result ≡ known (map string_bytes columns.now) name.now }
{
    for column in columns {
        if name == column.as_bytes() {
            return Some(column.as_str());
        }
    }
    None
}

/// The names, where each is that of a column.
fn known_names<'c>(
    alloc: Global,
    columns: &'c [String],
    names: &[&[u8]],
) -> Result<Option<Vec<&'c str>>, Memory>
    ensures { IfOk result (λ o. option_map (λ v. map (λ t. t.now) v.items) o
        ≡ each (known (map string_bytes columns.now)) (map (λ t. t.now) names.now)) }
{
    let mut found = Vec::new(alloc);
    for name in names {
        let Some(column) = known(columns, *name) else {
            return Ok(None);
        };
        found.push(column)?;
    }
    Ok(Some(found))
}

/// Adds a name at the end, unless it stands there.
fn add_name(alloc: Global, table: &mut IndexSet<String>, name: &str) -> Result<bool, Memory>
    ensures new { IfOk result (λ is_new. is_new ≡ not (stands_in (map string_bytes table.old.keys) name.now)) }
    ensures last { IfOk result (λ is_new. is_new ≡ true
        → map string_bytes table.new.keys ≡ map string_bytes table.old.keys ++ name.now ∷ []) }
{
    let (_, is_new) = table.insert_full(String::from_str(alloc, name)?)?;
    Ok(is_new)
}

/// The names, each with its place, where none stands twice.
fn distinct(alloc: Global, names: &[&str]) -> Result<Option<IndexSet<String>>, Memory>
    ensures { IfOk result (λ o. option_map (λ h. map string_bytes h.keys) o ≡ distinct (map (λ t. t.now) names.now)) }
{
    let mut table = IndexSet::new(alloc);
    for name in names {
        let is_new = add_name(alloc, &mut table, *name)?;
        if !is_new {
            return Ok(None);
        }
    }
    Ok(Some(table))
}

/// The head that these names are: each is that of a column, and none stands twice.
pub fn head_of(
    alloc: Global,
    columns: &[String],
    names: &[&[u8]],
) -> Result<Option<IndexSet<String>>, Memory>
    ensures { IfOk result (λ o. option_map (λ h. map string_bytes h.keys) o
        ≡ head_of (map string_bytes columns.now) (map (λ t. t.now) names.now)) }
{
    match known_names(alloc, columns, names)? {
        Some(found) => distinct(alloc, &found),
        None => Ok(None),
    }
}

/// The head that a line is.
fn head_in(
    alloc: Global,
    columns: &[String],
    line: &[u8],
) -> Result<Option<IndexSet<String>>, Memory>
    ensures { IfOk result (λ o. option_map (λ h. map string_bytes h.keys) o ≡ head_in (map string_bytes columns.now) line.now) }
{
    let Some(record) = record_of(alloc, line)? else {
        return Ok(None);
    };
    let names = cells_of(alloc, &record)?;
    head_of(alloc, columns, &names)
}

/// Appends which of these names is no column's, or stands twice. Where no column is near, those that are listed are named.
fn push_columns(
    text: &mut String,
    alloc: Global,
    columns: &[String],
    listed: &[String],
    names: &[&[u8]],
) -> Result<(), Memory> {
    for (place, name) in names.iter().enumerate() {
        let given = String::from_utf8_lossy(alloc, *name)?;
        if known(columns, *name).is_none() {
            let all = names_of(alloc, columns)?;
            let is_near = nearest(alloc, &given, &all)?.is_some();
            let shown = names_of(alloc, if is_near { columns } else { listed })?;
            return push_unknown(
                text,
                alloc,
                "there is no column ",
                &given,
                "; the columns are ",
                &shown,
            );
        }
        if names[..place].contains(name) {
            text.push_str("the column ")?;
            push_name(text, &given)?;
            text.push_str(" stands there twice")?;
            return Ok(());
        }
    }
    Ok(())
}

/// Why these names are no head: one is no column's, or stands twice.
pub fn head_reason(alloc: Global, columns: &[String], names: &[&[u8]]) -> Result<String, Memory> {
    let mut text = String::new(alloc);
    push_columns(&mut text, alloc, columns, columns, names)?;
    sentence(alloc, &text, "it has a name that is no column")
}

/// Appends why a line is no head.
fn push_line(
    text: &mut String,
    alloc: Global,
    columns: &[String],
    listed: &[String],
    line: &[u8],
) -> Result<(), Memory> {
    match record_of(alloc, line)? {
        Some(record) => {
            let names = cells_of(alloc, &record)?;
            push_columns(text, alloc, columns, listed, &names)
        }
        None => {
            text.push_str("it is more than one record")?;
            Ok(())
        }
    }
}

/// Why what was read is no head.
fn reason(
    alloc: Global,
    columns: &[String],
    listed: &[String],
    reading: Reading,
    line: &[u8],
) -> Result<String, Memory> {
    let mut text = String::new(alloc);
    match reading {
        Reading::Line => push_line(&mut text, alloc, columns, listed, line)?,
        Reading::Long => text.push_str("it has more bytes than a line may have")?,
        Reading::Unfinished => text.push_str("the input ends in the middle of it")?,
        Reading::End => {
            text.push_str("the input is empty, and its first line has names of columns")?;
            if !listed.is_empty() {
                text.push_str(": ")?;
                let names = names_of(alloc, listed)?;
                push_names(&mut text, &names)?;
            }
        }
    }
    sentence(alloc, &text, "it has a name that is no column")
}

/// Writes why what was read is no head. What can't be written changes nothing.
fn explain<F: Sink>(
    alloc: Global,
    columns: &[String],
    listed: &[String],
    reading: Reading,
    line: &[u8],
    faults: &mut F,
) {
    let _ = write_all(faults, b"error S2 line 1: ");
    match reason(alloc, columns, listed, reading, line) {
        Ok(text) => {
            let _ = write_all(faults, text.as_bytes());
        }
        Err(Memory) => {
            let _ = write_all(faults, b"out of memory");
        }
    }
    let _ = write_all(faults, b"\n");
}

/// Reads the first line as the head of a table: names of these columns, each at most once. Where it is none, `faults` is given what is
/// wrong, which names the columns that are listed.
pub fn read_head<S: Source, F: Sink>(
    alloc: Global,
    columns: &[String],
    listed: &[String],
    input: &mut S,
    faults: &mut F,
) -> Result<Option<IndexSet<String>>, PlayError>
    ensures { IfOk result (λ o. HasReadHead (map string_bytes columns.now) (S.left input.old) (S.left input.new)
        (option_map (λ h. map string_bytes h.keys) o)) }
{
    let mut line = Vec::new(alloc);
    let reading = read_line(input, &mut line)?;
    if reading == Reading::Line {
        if let Some(head) = head_in(alloc, columns, &line)? {
            return Ok(Some(head));
        }
    }
    explain(alloc, columns, listed, reading, &line, faults);
    Ok(None)
}
