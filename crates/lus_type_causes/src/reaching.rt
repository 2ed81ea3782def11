//! Fields that are taken one level too high.

use crate::given::Given;
use crate::kinds::field_through;
use lus_faults::{Edit, bytes_at, expressions_in, extent_of, slice_of};
use lus_syntax::{Equation, Expr, Fields, Name};
use std::alloc::AllocError;

/// A field of a structure that has a field of a name, and the fields of the structure that lacks it.
#[derive(Clone, Copy)]
pub struct Through<'t> {
    pub name: &'t Name,
    pub outer: &'t Name,
    pub groups: &'t [Fields],
}

/// The text of the expression that a field is taken of, where it stands in an equation.
fn owner_in<'t>(
    given: Given<'t>,
    equation: &'t Equation,
    name: &Name,
) -> Result<Option<&'t str>, AllocError> {
    for expr in &expressions_in(given.alloc, &equation.right)? {
        if let Expr::Field(operand, field) = *expr
            && field.span.start.byte == name.span.start.byte
        {
            return Ok(Some(slice_of(given.source, extent_of(given.source, operand))));
        }
    }
    Ok(None)
}

/// Where fields are taken of an expression of this text in an equation that are those of the same field of it, in the order of the text.
fn places_in(
    given: Given<'_>,
    equation: &Equation,
    owner: &str,
    through: Through<'_>,
) -> Result<Vec<usize>, AllocError> {
    let mut places = Vec::new(given.alloc);
    for expr in &expressions_in(given.alloc, &equation.right)? {
        if let Expr::Field(operand, field) = *expr
            && slice_of(given.source, extent_of(given.source, operand)) == owner
            && let Some(outer) = field_through(given.tree, through.groups, &field.text)
            && outer.span.start.byte == through.outer.span.start.byte
        {
            places.push(field.span.start.byte)?;
        }
    }
    places.sort()?;
    Ok(places)
}

/// The change of a source that writes a field of a name before those at some places.
fn written(given: Given<'_>, places: &[usize], outer: &Name) -> Result<Option<Edit>, AllocError> {
    let Some(first) = places.first() else {
        return Ok(None);
    };
    let mut text = String::new(given.alloc);
    let mut end = *first;
    for place in places {
        text.push_str(bytes_at(given.source, end, *place).unwrap_or(""))?;
        text.push_str(outer.text.as_str())?;
        text.push('.')?;
        end = *place;
    }
    Ok(Some(Edit {
        byte: *first,
        length: end.saturating_sub(*first),
        text,
    }))
}

/// The change of a source that takes a field through the one that has it, and all others of its equation that are taken alike.
pub fn through_edit(given: Given<'_>, through: Through<'_>) -> Result<Option<Edit>, AllocError> {
    for equation in given.equations() {
        if let Some(owner) = owner_in(given, equation, through.name)? {
            let places = places_in(given, equation, owner, through)?;
            return written(given, &places, through.outer);
        }
    }
    Ok(None)
}
