//! An `if` among the operands of an operator: what stands behind its last value may belong to it or not.

use crate::fault::{Fault, Range};
use crate::pattern::operand_end;
use crate::words::is_any;
use lus_proposals::strength_behind;
use std::alloc::{AllocError, Global};

/// Where the last operand of an `if` ends, if an operator goes on behind it that binds no closer than the one before the `if`: then what
/// follows may not belong to the `if`.
pub fn early_end(fault: &Fault<'_>, lead: &str, range: Range) -> Option<usize> {
    let (from, to) = range;
    if !is_any(fault.text(from), &["if"]) || from != fault.place {
        return None;
    }
    let mut depth = 0usize;
    let mut open = 0usize;
    for place in from..to {
        match fault.text(place) {
            "(" | "{" => depth = depth.saturating_add(1),
            ")" | "}" => depth = depth.saturating_sub(1),
            "if" if depth == 0 => open = open.saturating_add(1),
            "else" if depth == 0 && open > 1 => open = open.saturating_sub(1),
            "else" if depth == 0 => {
                let end = operand_end(fault, place.saturating_add(1));
                let before = strength_behind(lead)?;
                let behind = strength_behind(fault.text(end))?;
                return (end < to && behind <= before).then_some(end);
            }
            _ => {}
        }
    }
    None
}

/// The note on such an `if`, whose last operand ends at a place: how it is written both ways.
pub fn note_on_end(
    alloc: Global,
    fault: &Fault<'_>,
    range: Range,
    end: usize,
) -> Result<String, AllocError> {
    let (from, to) = range;
    let (short, rest) = (fault.text_of((from, end)), fault.text_of((end, to)));
    let sign = fault.text(end);
    let last = fault.text_of((end.saturating_add(1), to));
    let (open, close) = if last.starts_with("if ") {
        ("(", ")")
    } else {
        ("", "")
    };
    format!(in alloc;
        "What stands behind its last value may belong to the `if` or not: write `({short}) {sign} {open}{last}{close}` or `({short} {rest})`."
    )
}
