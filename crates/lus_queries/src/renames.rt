//! Names that can be replaced, and changes that do so.

ghost use Rattle.std.specs.Prelude.{◌≡◌, ◌++◌, IfOk, OnOk, string_bytes};
ghost use Rattle.std.specs.List.{flat_map};
ghost use Rattle.lus_queries.specs.Edits.{Edits, edit_text, edits_text, other_edit_text, spot_text, workspace_text};

use crate::changes::{Change, changes_between};
use crate::places::{Spot, lines_of, push_span};
use lus_diagnostics::push_string;
use lus_occurrences::names_of;
use std::alloc::{AllocError, Global};

/// Where the name at a spot stands, and how it reads (`PrepareRenameResult`); null where no name stands that is declared.
pub fn renamable(alloc: Global, source: &str, at: Spot) -> Result<String, AllocError> {
    let lines = lines_of(alloc, source)?;
    let names = names_of(alloc, source)?;
    let Some(occurrence) = names.occurrence_at(lines.byte_at(at)) else {
        return String::from_str(alloc, "null");
    };
    let Some(span) = names.span_of(occurrence.token) else {
        return String::from_str(alloc, "null");
    };
    let mut text = String::from_str(alloc, "{\"range\":")?;
    push_span(&mut text, &lines, span)?;
    text.push_str(",\"placeholder\":")?;
    push_string(alloc, &mut text, names.name(occurrence.declaration))?;
    text.push_str("}")?;
    Ok(text)
}

/// Appends a text.
fn push_part(text: &mut String, part: &str) -> Result<(), AllocError>
    ensures { OnOk result (string_bytes text.new ≡ string_bytes text.old ++ part.now) }
{
    text.push_str(part)
}

/// Appends where a change begins or ends (`Position`).
fn push_spot(text: &mut String, spot: Spot) -> Result<(), AllocError>
    ensures { OnOk result (string_bytes text.new ≡ string_bytes text.old ++ spot_text spot) }
{
    let line = spot.line;
    let character = spot.character;
    write!(text, "{{\"line\":{line},\"character\":{character}}}")
}

/// Appends a change (`TextEdit`).
fn push_edit(alloc: Global, text: &mut String, change: &Change<'_>) -> Result<(), AllocError>
    ensures { OnOk result (string_bytes text.new ≡ string_bytes text.old ++ edit_text change.now) }
{
    push_part(text, "{\"range\":{\"start\":")?;
    push_spot(text, change.from)?;
    push_part(text, ",\"end\":")?;
    push_spot(text, change.to)?;
    push_part(text, "},\"newText\":")?;
    push_string(alloc, text, change.text)?;
    push_part(text, "}")?;
    Ok(())
}

/// Appends a change behind another one.
fn push_other(alloc: Global, text: &mut String, change: &Change<'_>) -> Result<(), AllocError>
    ensures { OnOk result (string_bytes text.new ≡ string_bytes text.old ++ other_edit_text change.now) }
{
    push_part(text, ",")?;
    push_edit(alloc, text, change)?;
    Ok(())
}

/// Appends changes behind another one.
fn push_others(alloc: Global, text: &mut String, changes: &[Change<'_>]) -> Result<(), AllocError>
    ensures { OnOk result (string_bytes text.new ≡ string_bytes text.old ++ flat_map other_edit_text changes.now) }
{
    for change in changes {
        push_other(alloc, text, change)?;
    }
    Ok(())
}

/// Appends changes.
fn push_edits(alloc: Global, text: &mut String, changes: &[Change<'_>]) -> Result<(), AllocError>
    ensures { OnOk result (string_bytes text.new ≡ string_bytes text.old ++ edits_text changes.now) }
{
    let Some((first, others)) = changes.split_first() else {
        return Ok(());
    };
    push_edit(alloc, text, first)?;
    push_others(alloc, text, others)?;
    Ok(())
}

/// Changes of the document of a name (`WorkspaceEdit`).
fn workspace_edit(alloc: Global, uri: &str, changes: &[Change<'_>]) -> Result<String, AllocError>
    ensures { IfOk result (λ t. string_bytes t ≡ workspace_text uri.now changes.now) }
{
    let mut text = String::new(alloc);
    push_part(&mut text, "{\"changes\":{")?;
    push_string(alloc, &mut text, uri)?;
    push_part(&mut text, ":[")?;
    push_edits(alloc, &mut text, changes)?;
    push_part(&mut text, "]}}")?;
    Ok(text)
}

/// The changes of the document of a name that make another text of its source (`WorkspaceEdit`).
pub fn edits(alloc: Global, uri: &str, source: &str, made: &str) -> Result<String, AllocError>
    ensures { IfOk result (λ t. Edits uri.now source.now made.now (string_bytes t)) }
{
    let changes = changes_between(alloc, source, made)?;
    workspace_edit(alloc, uri, &changes)
}
