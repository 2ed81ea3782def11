//! Declarations of variables, and how they read when they are changed.

use lus_faults::{Edit, bytes_at};
use lus_syntax::{Group, Name, Span, Test, TypeName};
use std::alloc::{AllocError, Global};

/// Where a type's name stands.
pub fn type_span(type_name: &TypeName) -> Span {
    match type_name {
        TypeName::Bool(span) | TypeName::Int(span) => *span,
        TypeName::Declared(name) => name.span,
    }
}

/// The byte behind the next closing parenthesis, from a byte on; that byte itself where there is none.
fn behind_parenthesis(bytes: &[u8], from: usize) -> usize {
    let mut at = from;
    for byte in bytes.get(from..).unwrap_or(&[]) {
        at = at.saturating_add(1);
        if *byte == b')' {
            return at;
        }
    }
    from
}

/// The byte behind a group of variables: behind its type or its clock.
pub fn group_end(source: &str, group: &Group) -> usize {
    let bytes = source.as_bytes();
    let type_end = type_span(&group.type_name).end().byte;
    let name = match &group.test {
        Some(Test::Holds(name) | Test::Fails(_, name) | Test::Is(_, name)) => name,
        None => return type_end,
    };
    let end = name.span.end().byte;
    let clock = bytes.get(type_end..end).unwrap_or(&[]);
    if clock.iter().any(|byte| *byte == b'(') {
        behind_parenthesis(bytes, end)
    } else {
        end
    }
}

/// The name of this text alone, among those of a group.
pub fn alone<'t>(group: &'t Group, text: &str) -> &'t [Name] {
    for (place, name) in group.names.iter().enumerate() {
        if name.text.as_str() == text {
            return group
                .names
                .get(place..place.saturating_add(1))
                .unwrap_or(&[]);
        }
    }
    &[]
}

/// Whether a name is among some.
fn has(names: &[Name], name: &Name) -> bool {
    for other in names {
        if other.text.as_str() == name.text.as_str() {
            return true;
        }
    }
    false
}

/// Appends variables with a type, behind those before them.
fn push_group(text: &mut String, names: &[Name], declared: &str) -> Result<(), AllocError> {
    if names.is_empty() {
        return Ok(());
    }
    if !text.is_empty() {
        text.push_str("; ")?;
    }
    for (place, name) in names.iter().enumerate() {
        let comma = if place > 0 { ", " } else { "" };
        let name = name.text.as_str();
        write!(text, "{comma}{name}")?;
    }
    write!(text, ": {declared}")
}

/// The change of a source that declares some variables of a group, which stand together in it, with another type or clock, which stand in a
/// text as behind a colon: the whole group, or these variables between the others.
pub fn redeclaring(
    alloc: Global,
    source: &str,
    group: &Group,
    names: &[Name],
    declared: &str,
) -> Result<Option<Edit>, AllocError> {
    let Some(first) = group.names.first() else {
        return Ok(None);
    };
    let end = group_end(source, group);
    let type_start = type_span(&group.type_name).start.byte;
    if names.len() == group.names.len() {
        let text = String::from_str(alloc, declared)?;
        return Ok(Some(Edit {
            byte: type_start,
            length: end.saturating_sub(type_start),
            text,
        }));
    }
    let as_before = bytes_at(source, type_start, end).unwrap_or("");
    let start = first.span.start.byte;
    let count = group
        .names
        .iter()
        .take_while(|name| !has(names, name))
        .count();
    let behind = count.saturating_add(names.len());
    let mut text = String::new(alloc);
    push_group(
        &mut text,
        group.names.get(..count).unwrap_or(&[]),
        as_before,
    )?;
    push_group(&mut text, names, declared)?;
    push_group(
        &mut text,
        group.names.get(behind..).unwrap_or(&[]),
        as_before,
    )?;
    Ok(Some(Edit {
        byte: start,
        length: end.saturating_sub(start),
        text,
    }))
}

/// How many of some equations a change mends, by whether each is at fault before it and after it: none where it makes one fail that was
/// right.
pub fn mended_by(before: &[bool], after: &[bool]) -> usize {
    let mut mended = 0usize;
    for (place, was_at_fault) in before.iter().enumerate() {
        let is_at_fault = after.get(place).copied().unwrap_or(true);
        if is_at_fault && !*was_at_fault {
            return 0;
        }
        if *was_at_fault && !is_at_fault {
            mended = mended.saturating_add(1);
        }
    }
    mended
}
