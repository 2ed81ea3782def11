//! Changes of the text that mend a fault of types, and the fields that there are.

use crate::given::Given;
use crate::kinds::{part_named, value_of_type};
use crate::listing::counting;
use crate::reaching::{Through, through_edit};
use lus_declarations::type_span;
use lus_faults::{Edit, bytes_at, nearest, slice_of, variable_named};
use lus_syntax::{Expr, Fields, Group, Name, Part, Span};
use std::alloc::{AllocError, Global};

/// How many fields of a structure are told.
const MOST_TOLD: usize = 8;

/// A change of the text.
#[derive(Clone, Copy)]
pub enum Repair<'t> {
    /// The nearest of some fields in the place of a name.
    Field(&'t Name, &'t [Fields]),
    /// The branches that a `merge` lacks, at its end.
    Branches(Lacking<'t>),
    /// A sign in the place of so many bytes from one on.
    Sign(usize, usize, &'static str),
    /// A field before one of its own.
    Through(Through<'t>),
    /// Two arguments, each in the place of the other.
    Exchange(Span, Span),
    /// A part of an expression in its place.
    Part(Span, Span),
    /// The fields that a structure lacks, behind a byte.
    Fields(usize, &'t [Fields], &'t [Part]),
    /// Numbers in the place of the conditions among the operands of sums and products.
    Numbers(&'t Expr),
    /// A comparison with zero behind a number, with parentheses where an operator stands right before it.
    Compared(Span, bool),
}

/// The branches of a `merge`, which ends before a byte; the constructors of its variable, none of a `bool`; and the value of the
/// branches that are missing.
#[derive(Clone, Copy)]
pub struct Lacking<'t> {
    pub end: usize,
    pub parts: &'t [Part],
    pub constructors: &'t [Name],
    pub value: &'t str,
}

/// The names of fields.
fn names_of(alloc: Global, groups: &[Fields]) -> Result<Vec<&str>, AllocError> {
    let mut names = Vec::new(alloc);
    for group in groups {
        for field in &group.names {
            names.push(field.text.as_str())?;
        }
    }
    Ok(names)
}

/// The nearest of some fields in the place of a name.
fn field_edit(alloc: Global, name: &Name, groups: &[Fields]) -> Result<Option<Edit>, AllocError> {
    let names = names_of(alloc, groups)?;
    match nearest(alloc, name.text.as_str(), &names)? {
        Some(meant) => Ok(Some(Edit {
            byte: name.span.start.byte,
            length: name.span.length,
            text: String::from_str(alloc, meant)?,
        })),
        None => Ok(None),
    }
}

/// Appends names, with commas between and an `and` before the last; of many the first, and how many others there are.
pub fn push_names(text: &mut String, names: &[&str]) -> Result<(), AllocError> {
    let count = names.len();
    let told = names.get(..MOST_TOLD).unwrap_or(names);
    for (place, name) in told.iter().enumerate() {
        let comma = match place {
            0 => "",
            _ if place.saturating_add(1) == count => " and ",
            _ => ", ",
        };
        write!(text, "{comma}`{name}`")?;
    }
    let others = count.saturating_sub(MOST_TOLD);
    if others > 0 {
        write!(text, " and {others} more")?;
    }
    Ok(())
}

/// The note on a name that is no field of a type: which fields it has.
pub fn note_on_fields(alloc: Global, of: &str, groups: &[Fields]) -> Result<String, AllocError> {
    let names = names_of(alloc, groups)?;
    let word = if names.len() == 1 { "field" } else { "fields" };
    let mut note = format!(in alloc; "`{of}` has the {word} ")?;
    push_names(&mut note, &names)?;
    note.push('.')?;
    Ok(note)
}

/// Appends the branch of a label, if there is none.
fn push_branch(text: &mut String, lacking: Lacking<'_>, label: &str) -> Result<(), AllocError> {
    let value = lacking.value;
    if part_named(lacking.parts, label).is_none() {
        write!(text, " ({label} -> {value})")?;
    }
    Ok(())
}

/// A branch for each label that has none.
fn branches_edit(alloc: Global, lacking: Lacking<'_>) -> Result<Edit, AllocError> {
    let mut text = String::new(alloc);
    for constructor in lacking.constructors {
        push_branch(&mut text, lacking, constructor.text.as_str())?;
    }
    if lacking.constructors.is_empty() {
        push_branch(&mut text, lacking, "true")?;
        push_branch(&mut text, lacking, "false")?;
    }
    Ok(Edit {
        byte: lacking.end,
        length: 0,
        text,
    })
}

/// A value for each field that a structure lacks.
fn fields_edit(
    given: Given<'_>,
    byte: usize,
    groups: &[Fields],
    parts: &[Part],
) -> Result<Option<Edit>, AllocError> {
    let mut text = String::new(given.alloc);
    for group in groups {
        for name in &group.names {
            if part_named(parts, &name.text).is_some() {
                continue;
            }
            let Some(value) = value_of_type(given.tree, &group.type_name) else {
                return Ok(None);
            };
            let field = name.text.as_str();
            write!(text, "; {field} = {value}")?;
        }
    }
    Ok(Some(Edit {
        byte,
        length: 0,
        text,
    }))
}

/// The change of a source that exchanges two parts of it, the first of which stands before the second.
fn exchanging(alloc: Global, source: &str, first: Span, second: Span) -> Result<Edit, AllocError> {
    let (one, other) = (slice_of(source, first), slice_of(source, second));
    let between = bytes_at(source, first.end().byte, second.start.byte).unwrap_or("");
    let byte = first.start.byte;
    Ok(Edit {
        byte,
        length: second.end().byte.saturating_sub(byte),
        text: format!(in alloc; "{other}{between}{one}")?,
    })
}

/// The names of the variables of groups.
pub fn variables_of(alloc: Global, groups: &[Group]) -> Result<Vec<&str>, AllocError> {
    let mut names = Vec::new(alloc);
    for group in groups {
        for name in &group.names {
            names.push(name.text.as_str())?;
        }
    }
    Ok(names)
}

/// Appends how the outputs of a called node are declared that have no variable, from a place among them on, but for those whose names are
/// taken.
fn push_declared(
    given: Given<'_>,
    note: &mut String,
    outputs: &[Group],
    from: usize,
) -> Result<(), AllocError> {
    let (mut place, mut front) = (0usize, ", with `var ");
    for group in outputs {
        let of = slice_of(given.source, type_span(&group.type_name));
        for name in &group.names {
            let text = name.text.as_str();
            let is_taken = match given.node {
                Some(node) => variable_named(node, text).is_some(),
                None => true,
            };
            if place >= from && !is_taken {
                write!(note, "{front}{text}: {of};")?;
                front = " ";
            }
            place = place.saturating_add(1);
        }
    }
    note.push_str(if front == " " { "`." } else { "." })
}

/// The names on the left of an equation, of which one is told.
fn left_with<'t>(given: Given<'t>, name: &Name) -> &'t [Name] {
    for equation in given.equations() {
        for left in &equation.left {
            if left.span.start.byte == name.span.start.byte {
                return equation.left.as_slice();
            }
        }
    }
    &[]
}

/// The note on a call whose outputs have too few variables: how each is taken.
pub fn note_on_outputs(
    given: Given<'_>,
    owner: &str,
    left: &Name,
    outputs: &[Group],
) -> Result<String, AllocError> {
    let names = variables_of(given.alloc, outputs)?;
    let own = left_with(given, left);
    let mut note = format!(in given.alloc; "`{owner}` has the outputs ")?;
    push_names(&mut note, &names)?;
    note.push_str(". Each needs a variable, as in `(")?;
    for (place, output) in names.iter().enumerate() {
        let comma = if place == 0 { "" } else { ", " };
        let name = match own.get(place) {
            Some(name) => name.text.as_str(),
            None => *output,
        };
        write!(note, "{comma}{name}")?;
    }
    write!(note, ") = {owner}(..);`")?;
    push_declared(given, &mut note, outputs, own.len())?;
    Ok(note)
}

/// The change of the text, if there is one.
pub fn edit_of(given: Given<'_>, repair: Repair<'_>) -> Result<Option<Edit>, AllocError> {
    let (alloc, source) = (given.alloc, given.source);
    match repair {
        Repair::Field(name, groups) => field_edit(alloc, name, groups),
        Repair::Branches(lacking) => Ok(Some(branches_edit(alloc, lacking)?)),
        Repair::Sign(byte, length, sign) => Ok(Some(Edit {
            byte,
            length,
            text: String::from_str(alloc, sign)?,
        })),
        Repair::Through(through) => through_edit(given, through),
        Repair::Fields(byte, groups, parts) => fields_edit(given, byte, groups, parts),
        Repair::Numbers(right) => counting(given, right),
        Repair::Part(whole, part) => Ok(Some(Edit {
            byte: whole.start.byte,
            length: whole.length,
            text: String::from_str(alloc, slice_of(source, part))?,
        })),
        Repair::Compared(span, is_enclosed) => {
            let (open, close) = if is_enclosed { ("(", ")") } else { ("", "") };
            let number = slice_of(source, span);
            Ok(Some(Edit {
                byte: span.start.byte,
                length: span.length,
                text: format!(in alloc; "{open}{number} <> 0{close}")?,
            }))
        }
        Repair::Exchange(first, second) => { Ok(Some(exchanging(alloc, source, first, second)?)) }
    }
}
