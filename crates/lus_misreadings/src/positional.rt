//! Structures whose fields are given by their places, as other languages do.

use crate::edits::edit_of;
use crate::fault::{Fault, Range, is_name};
use crate::gate::about_marks;
use crate::places::MOST_TOKENS;
use crate::saying::told_of_found;
use crate::words::is_any;
use lus_faults::{Finding, slice_of};
use std::alloc::{AllocError, Global};

/// The place of the brace that the fault is in, if nothing separates the two.
fn brace_before(fault: &Fault<'_>) -> Option<usize> {
    let mut depth = 0usize;
    for back in 1..MOST_TOKENS {
        match fault.before(back) {
            "" | ";" | "," | "=" if depth == 0 => return None,
            "" => return None,
            ")" | "}" => depth = depth.saturating_add(1),
            "(" if depth == 0 => return None,
            "{" if depth == 0 => return fault.place.checked_sub(back),
            "(" | "{" => depth = depth.saturating_sub(1),
            _ => {}
        }
    }
    None
}

/// The items in a brace, and the place of the one that closes it.
fn items_in(
    alloc: Global,
    fault: &Fault<'_>,
    brace: usize,
) -> Result<Option<(Vec<Range>, usize)>, AllocError> {
    let mut items = Vec::new(alloc);
    let mut depth = 0usize;
    let mut from = brace.saturating_add(1);
    for place in brace.saturating_add(1)..fault.tokens.len() {
        match fault.text(place) {
            "(" | "{" => depth = depth.saturating_add(1),
            "}" if depth == 0 => {
                items.push((from, place))?;
                return Ok(Some((items, place)));
            }
            ")" | "}" => depth = depth.saturating_sub(1),
            "," | ";" if depth == 0 => {
                items.push((from, place))?;
                from = place.saturating_add(1);
            }
            _ => {}
        }
    }
    Ok(None)
}

/// The names of the fields of a structure, in the order of its declaration.
fn fields_of<'t>(
    alloc: Global,
    fault: &Fault<'t>,
    owner: &str,
) -> Result<Vec<&'t str>, AllocError> {
    let mut fields = Vec::new(alloc);
    let (mut first, mut second, mut third) = ("", "", "");
    let mut is_inside = false;
    let mut is_type = false;
    for token in fault.all {
        let text = slice_of(fault.source, token.span);
        if is_inside {
            match text {
                "}" => return Ok(fields),
                ":" => is_type = true,
                ";" => is_type = false,
                _ if !is_type && is_name(Some(token)) => fields.push(text)?,
                _ => {}
            }
        }
        is_inside = is_inside
            || first == owner && second == "=" && third == "struct" && is_any(text, &["{"]);
        first = second;
        second = third;
        third = text;
    }
    Ok(fields)
}

/// How a structure is written with these fields, whose values are some items.
fn written(
    alloc: Global,
    fault: &Fault<'_>,
    fields: &[&str],
    items: &[Range],
) -> Result<String, AllocError> {
    let mut text = String::new(alloc);
    for (place, field) in fields.iter().enumerate() {
        let item = items.get(place).copied().unwrap_or((0, 0));
        let front = if place == 0 { "" } else { "; " };
        let value = fault.text_of(item);
        write!(text, "{front}{field} = {value}")?;
    }
    Ok(text)
}

/// Appends the fields of a structure, with points for their values.
fn push_fields(note: &mut String, owner: &str, fields: &[&str]) -> Result<(), AllocError> {
    write!(note, "`{owner} {{ ")?;
    for (place, field) in fields.iter().enumerate() {
        let front = if place == 0 { "" } else { "; " };
        write!(note, "{front}{field} = ..")?;
    }
    note.push_str(" }`")
}

/// Adds to a finding how a structure is written, if there are as many items as fields.
fn with_fields(
    alloc: Global,
    fault: &Fault<'_>,
    finding: Finding,
    fields: &[&str],
    items: &[Range],
) -> Result<Finding, AllocError> {
    let (Some((from, _)), Some((_, to))) = (items.first().copied(), items.last().copied()) else {
        return Ok(finding);
    };
    if fields.len() != items.len() {
        return Ok(finding);
    }
    let text = written(alloc, fault, fields, items)?;
    let mut about = about_marks(alloc);
    for field in fields {
        about.adds.push(*field)?;
        about.adds.push("=")?;
    }
    let edit = edit_of(alloc, fault, (from, to), text.as_str(), &about)?;
    Ok(finding.with_edit(edit))
}

/// The note on fields, whose names may not be known.
fn note_on(alloc: Global, owner: &str, fields: &[&str]) -> Result<String, AllocError> {
    if fields.is_empty() {
        return format!(in alloc; "They come in any order, as in `{owner} {{ x = 1; y = 2 }}`.");
    }
    let mut note = String::from_str(alloc, "They come in any order: ")?;
    push_fields(&mut note, owner, fields)?;
    note.push('.')?;
    Ok(note)
}

/// What is said of a structure whose fields have no names.
pub fn positional(alloc: Global, fault: &Fault<'_>) -> Result<Option<Finding>, AllocError> {
    let Some(brace) = brace_before(fault) else {
        return Ok(None);
    };
    let owner = fault.text(brace.saturating_sub(1));
    let Some((items, _)) = items_in(alloc, fault, brace)? else {
        return Ok(None);
    };
    let have_names = items.iter().any(|(from, _)| is_any(
        fault.text(from.saturating_add(1)),
        &[":", "="],
    ));
    if have_names || !is_name(fault.tokens.get(brace.saturating_sub(1))) {
        return Ok(None);
    }
    let fields = fields_of(alloc, fault, owner)?;
    let sentence = format!(in alloc; "the fields of `{owner}` are given by their names")?;
    let note = note_on(alloc, owner, &fields)?;
    let finding = told_of_found(alloc, fault, sentence, note.as_str())?;
    Ok(Some(with_fields(alloc, fault, finding, &fields, &items)?))
}
