//! What the head of the fault's node declares, and what its equations define.

use crate::fault::Fault;
use crate::words::is_any;

/// The place in the head, from one on, at which a name is declared.
pub fn declared_from(fault: &Fault<'_>, from: usize, name: &str) -> Option<usize> {
    for place in from..fault.tokens.len() {
        let text = fault.text(place);
        if is_any(text, &["let"]) {
            return None;
        }
        if text == name && is_any(fault.text(place.saturating_add(1)), &[":", ","]) {
            return Some(place);
        }
    }
    None
}

/// The place of the type that a variable of this name is declared with.
pub fn type_of(fault: &Fault<'_>, name: &str) -> Option<usize> {
    let colon = fault.find(declared_from(fault, 0, name)?, &[":"])?;
    Some(colon.saturating_add(1))
}

/// Whether a variable of this name is declared with a type.
fn is_typed(fault: &Fault<'_>, name: &str, of: &str) -> bool {
    match type_of(fault, name) {
        Some(place) => fault.text(place) == of,
        None => false,
    }
}

/// Whether a variable of this name is declared in the head of the fault's declaration.
pub fn is_variable(fault: &Fault<'_>, name: &str) -> bool {
    declared_from(fault, 0, name).is_some()
}

/// Whether one is that has the type `bool`.
pub fn is_bool(fault: &Fault<'_>, name: &str) -> bool {
    is_typed(fault, name, "bool")
}

/// Whether one is that has the type `int`.
pub fn is_int(fault: &Fault<'_>, name: &str) -> bool {
    is_typed(fault, name, "int")
}

/// Whether a name has an equation by itself.
fn is_defined(fault: &Fault<'_>, name: &str) -> bool {
    for place in 0..fault.tokens.len() {
        if fault.text(place) == name
            && is_any(fault.text(place.saturating_sub(1)), &[";", "let"])
            && is_any(fault.text(place.saturating_add(1)), &["="])
        {
            return true;
        }
    }
    false
}

/// Whether an output or a local of this name is declared that has no equation.
pub fn is_free(fault: &Fault<'_>, name: &str) -> bool {
    match fault.find(0, &["returns"]) {
        Some(returns) => {
            declared_from(fault, returns, name).is_some() && !is_defined(fault, name)
        }
        None => false,
    }
}

/// The place of the value that the head gives a variable behind its type, as in `x: int last = 5`.
pub fn first_value(fault: &Fault<'_>, name: &str) -> Option<usize> {
    let colon = fault.find(declared_from(fault, 0, name)?, &[":"])?;
    let last = colon.saturating_add(2);
    let is_word = is_any(fault.text(last), &["last"]);
    let sign = last.saturating_add(usize::from(is_word));
    let value = sign.saturating_add(1);
    let is_single = is_any(fault.text(value.saturating_add(1)), &[";", ")"]);
    (is_any(fault.text(sign), &["="]) && is_single).then_some(value)
}

/// Whether the outputs are one, from the place behind its colon on.
fn is_last(fault: &Fault<'_>, from: usize) -> bool {
    for place in from..fault.tokens.len() {
        match fault.text(place) {
            "let" | "var" => return true,
            "," | ":" => return false,
            _ => {}
        }
    }
    false
}

/// The place of the only output in the head, if it has no equation.
pub fn only_output(fault: &Fault<'_>) -> Option<usize> {
    let place = fault.find(0, &["returns"])?.saturating_add(2);
    let colon = place.saturating_add(1);
    let is_only = is_any(fault.text(colon), &[":"]) && is_last(fault, colon.saturating_add(1));
    if is_only && !is_defined(fault, fault.text(place)) {
        Some(place)
    } else {
        None
    }
}
