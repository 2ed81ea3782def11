//! What `current` is written as: a `merge` in which a variable holds the last value.

use crate::changes::written;
use crate::fault::{Fault, Range, is_name};
use crate::heads::{declared_from, is_bool, is_int};
use crate::saying::told_of_found;
use crate::words::is_any;
use lus_faults::Finding;
use std::alloc::{AllocError, Global};

/// A clock in a declaration: its variable, and whether it holds where that is true.
#[derive(Clone, Copy)]
struct Ticks<'t> {
    variable: &'t str,
    is_true: bool,
}

/// The clock that the head gives a variable, where it is a truth value's.
fn clock_of<'t>(fault: &Fault<'t>, name: &str) -> Option<Ticks<'t>> {
    let colon = fault.find(declared_from(fault, 0, name)?, &[":"])?;
    let when = colon.saturating_add(2);
    if !is_any(fault.text(when), &["when"]) {
        return None;
    }
    let is_true = !is_any(fault.text(when.saturating_add(1)), &["not"]);
    let place = when.saturating_add(if is_true { 1 } else { 2 });
    let is_alone = is_any(fault.text(place.saturating_add(1)), &[";", ")"]);
    (is_name(fault.tokens.get(place)) && is_alone).then_some(Ticks {
        variable: fault.text(place),
        is_true,
    })
}

/// The variable that the fault's equation defines, where it is the only one.
fn left_of<'t>(fault: &Fault<'t>) -> Option<&'t str> {
    for back in 1..fault.place {
        let place = fault.place.saturating_sub(back);
        if is_any(fault.text(place), &[";", "let"]) {
            let sign = place.saturating_add(2);
            return is_any(fault.text(sign), &["="]).then_some(fault.text(place.saturating_add(1)));
        }
    }
    None
}

/// The tokens of `current` with its operand, which is a name, in parentheses or not.
fn call_of(fault: &Fault<'_>) -> (usize, Range) {
    let from = fault.place;
    if is_any(fault.behind(1), &["("]) && is_any(fault.behind(3), &[")"]) {
        (from.saturating_add(2), (from, from.saturating_add(4)))
    } else {
        (from.saturating_add(1), (from, from.saturating_add(2)))
    }
}

/// What is said of `current` before a variable with a clock.
pub fn held(alloc: Global, fault: &Fault<'_>) -> Result<Option<Finding>, AllocError> {
    if !is_any(fault.found(), &["current"]) {
        return Ok(None);
    }
    let (place, range) = call_of(fault);
    let stream = fault.text(place);
    let (Some(ticks), Some(left)) = (clock_of(fault, stream), left_of(fault)) else {
        return Ok(None);
    };
    let first = if is_bool(fault, stream) {
        "false"
    } else if is_int(fault, stream) {
        "0"
    } else {
        return Ok(None);
    };
    let variable = ticks.variable;
    let (label, other, not) = if ticks.is_true {
        ("true", "false", "not ")
    } else {
        ("false", "true", "")
    };
    let sentence = String::from_str(alloc, "`current` is not supported")?;
    let text = format!(in alloc;
        "merge {variable} ({label} -> {stream}) ({other} -> ({first} -> pre {left}) when {not}{variable})"
    )?;
    let is_whole = is_any(fault.before(1), &["="]) && is_any(fault.text(range.1), &[";"]);
    let edit = if is_whole {
        written(alloc, fault, range, text.as_str())?
    } else {
        None
    };
    let note = if edit.is_some() {
        format!(in alloc;
            "`{stream}` has no value before the first tick of its clock: choose one, the `{first}` is a placeholder. A `merge` with the variable's own last value holds it."
        )?
    } else {
        format!(in alloc;
            "It has no value before the first tick of its clock. Write `{left} = {text};`, where `{first}` is the value until then: choose it. Where more stands in the equation, give this to a local, and use that."
        )?
    };
    Ok(Some(told_of_found(alloc, fault, sentence, note.as_str())?.with_edit(edit)))
}
