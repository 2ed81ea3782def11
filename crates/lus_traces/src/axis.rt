//! What stands above and across the lanes of a picture of waves: numbers of instants, events, and refused calls.

use crate::frames::Frame;
use crate::markup::push_escaped;
use crate::time::Time;
use crate::trace::Refusal;
use crate::words::{push_word, width};
use lus_printable::printable;
use std::alloc::{AllocError, Global};

/// From the top of an instance's waves to the numbers of its instants, to the line below them, and to the marks of refused calls.
const NUMBERS: usize = 520;

const AXIS: usize = 580;

const REFUSALS: usize = 760;

/// Appends the axis: the numbers of instants that have room, each with a line through the lanes where its instant begins.
pub(crate) fn push_axis(
    out: &mut String,
    time: Time,
    top: usize,
    bottom: usize,
) -> Result<(), AllocError> {
    let axis = top.saturating_add(AXIS);
    let (left, right) = (time.end(0), time.right());
    write!(out, "<path class=\"axis\" d=\"M{left} {axis}H{right}\"/>\n")?;
    let step = time.step().max(1);
    for place in 0..time.instants {
        let number = time.first.saturating_add(place as u64);
        if number % step == 0 {
            let (x, y) = (time.end(place), top.saturating_add(NUMBERS));
            let middle = (x / 2).saturating_add(time.end(place + 1) / 2);
            write!(out, "<path class=\"grid\" d=\"M{x} {axis}V{bottom}\"/>\n")?;
            write!(
                out,
                "<text class=\"number\" x=\"{middle}\" y=\"{y}\">{number}</text>\n"
            )?;
        }
    }
    Ok(())
}

/// How far the name of the last events reaches.
pub(crate) fn events_end(time: Time, frames: &[Frame<'_>]) -> usize {
    let mut end = 0usize;
    for (place, frame) in frames.iter().enumerate() {
        if !frame.events.is_empty() {
            end = time.start(place).saturating_add(width(&frame.events));
        }
    }
    end
}

/// Appends a mark through all lanes where events stand before an instant, with their names where they have room.
pub(crate) fn push_events(
    out: &mut String,
    time: Time,
    frames: &[Frame<'_>],
    top: usize,
    bottom: usize,
) -> Result<(), AllocError> {
    let axis = top.saturating_add(AXIS);
    let mut free = 0usize;
    for (place, frame) in frames.iter().enumerate() {
        let events = frame.events.as_str();
        if !events.is_empty() {
            let x = time.start(place);
            write!(
                out,
                "<path class=\"event\" d=\"M{x} {axis}V{bottom}\"><title>{events}</title></path>\n"
            )?;
            if free <= x {
                let y = axis.saturating_add(120);
                push_word(out, "mark", x.saturating_add(20), y, events)?;
                free = x.saturating_add(width(events));
            }
        }
    }
    Ok(())
}

/// Appends a red mark above the lanes where calls were refused, with their lines of the journal as its title.
pub(crate) fn push_refusals(
    alloc: Global,
    out: &mut String,
    time: Time,
    refusals: &[Refusal],
    top: usize,
) -> Result<(), AllocError> {
    let y = top.saturating_add(REFUSALS);
    let mut last: Option<u64> = None;
    for refusal in refusals {
        if last == Some(refusal.behind) {
            out.push_str("\n")?;
        } else {
            if last.is_some() {
                out.push_str("</title></path>\n")?;
            }
            let x = time.behind(refusal.behind);
            write!(
                out,
                "<path class=\"refused\" d=\"M{x} {y}m-40 0h80l-40 110z\"><title>"
            )?;
            last = Some(refusal.behind);
        }
        push_escaped(out, &printable(alloc, &refusal.line)?)?;
    }
    if last.is_some() {
        out.push_str("</title></path>\n")?;
    }
    Ok(())
}
