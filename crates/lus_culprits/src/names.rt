//! Names in sentences.

use lus_faults::nearest;
use lus_program::{Field, Program, Variable};
use lus_values::Memory;
use std::alloc::Global;

/// The most characters that a sentence has of a name or of a value.
const MOST_LETTERS: usize = 60;

/// The most names that a sentence lists.
const MOST_NAMES: usize = 8;

/// Appends a text, or its front where it is long.
pub(crate) fn push_cut(text: &mut String, given: &str) -> Result<(), Memory> {
    let mut left = MOST_LETTERS;
    for letter in given.chars() {
        if left == 0 {
            text.push_str("..")?;
            return Ok(());
        }
        left -= 1;
        text.push(letter)?;
    }
    Ok(())
}

/// Appends a name in backquotes.
pub fn push_name(text: &mut String, name: &str) -> Result<(), Memory> {
    text.push_str("`")?;
    push_cut(text, name)?;
    text.push_str("`")?;
    Ok(())
}

/// Appends names, each in backquotes, or the first of many.
pub fn push_names(text: &mut String, names: &[&str]) -> Result<(), Memory> {
    for (place, name) in names.iter().enumerate() {
        if place == MOST_NAMES {
            let more = names.len().saturating_sub(place);
            write!(text, " and {more} more")?;
            return Ok(());
        }
        text.push_str(if place > 0 { ", " } else { "" })?;
        push_name(text, *name)?;
    }
    Ok(())
}

/// Appends a name that nothing has, and the name that is nearest to it; where none is near, all that there are.
pub fn push_unknown(
    text: &mut String,
    alloc: Global,
    unknown: &str,
    name: &str,
    known: &str,
    names: &[&str],
) -> Result<(), Memory> {
    text.push_str(unknown)?;
    push_name(text, name)?;
    if let Some(near) = nearest(alloc, name, names)? {
        text.push_str("; did you mean ")?;
        push_name(text, near)?;
        text.push_str("?")?;
        return Ok(());
    }
    if !names.is_empty() {
        text.push_str(known)?;
        push_names(text, names)?;
    }
    Ok(())
}

/// Appends how many things are given, and for which names.
pub fn push_count(
    text: &mut String,
    given: usize,
    thing: &str,
    wanted: &str,
    names: &[&str],
) -> Result<(), Memory> {
    let count = names.len();
    let are = if given == 1 { " is" } else { "s are" };
    let all = if count == 1 { "" } else { "s" };
    write!(
        text,
        "{given} {thing}{are} given, for {count} {wanted}{all}"
    )?;
    if count > 0 {
        text.push_str(": ")?;
        push_names(text, names)?;
    }
    Ok(())
}

/// The names of inputs.
pub fn input_names<'n>(alloc: Global, inputs: &'n [Variable]) -> Result<Vec<&'n str>, Memory> {
    let mut names = Vec::new(alloc);
    for input in inputs {
        names.push(input.name.as_str())?;
    }
    Ok(names)
}

/// The names of a program's nodes.
pub fn node_names(alloc: Global, program: &Program) -> Result<Vec<&str>, Memory> {
    let mut names = Vec::new(alloc);
    for node in &program.nodes {
        names.push(node.name.as_str())?;
    }
    Ok(names)
}

/// The names of fields.
pub(crate) fn field_names<'n>(alloc: Global, fields: &'n [Field]) -> Result<Vec<&'n str>, Memory> {
    let mut names = Vec::new(alloc);
    for field in fields {
        names.push(field.name.as_str())?;
    }
    Ok(names)
}

/// The names that stand in texts.
pub fn names_of<'n>(alloc: Global, texts: &'n [String]) -> Result<Vec<&'n str>, Memory> {
    let mut names = Vec::new(alloc);
    for text in texts {
        names.push(text.as_str())?;
    }
    Ok(names)
}
