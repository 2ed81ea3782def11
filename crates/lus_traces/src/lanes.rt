//! The lanes of a picture of waves: one for each signal, or for each field of a structure.

use crate::frames::Frame;
use crate::kinds::kind_of;
use crate::runs::{Run, runs_of};
use crate::scales::{LEVELS, Scale, height, scale_of};
use crate::time::Time;
use crate::trace::{Side, Signal};
use crate::words::{push_word, width};
use lus_values::{Memory, Names, print};
use std::alloc::{AllocError, Global};

/// How high a lane is, and from its lowest level to its end.
pub(crate) const LANE: usize = 460;

const BELOW: usize = 60;

/// How long the slanted edge of a box is.
const SLOPE: usize = 40;

/// What is drawn in a lane: over time, on a scale whose lowest level is there, these runs.
#[derive(Clone, Copy)]
struct Shape<'a> {
    time: Time,
    low: usize,
    scale: Scale,
    runs: &'a [Run<'a>],
}

/// Appends a line that is level over each run, without a link where an instant between has no value.
fn push_line(out: &mut String, shape: Shape<'_>) -> Result<(), AllocError> {
    let time = shape.time;
    let mut last = 0usize;
    for run in shape.runs {
        let y = shape.low.saturating_sub(height(shape.scale, run.value));
        if last > 0 && run.first.saturating_sub(1) == last {
            write!(out, "V{y}")?;
        } else {
            write!(out, "M{} {y}", time.start(run.first))?;
        }
        write!(out, "H{}", time.end(run.last))?;
        last = run.last;
    }
    Ok(())
}

/// Appends a box for each run.
fn push_boxes(out: &mut String, shape: Shape<'_>) -> Result<(), AllocError> {
    let (time, low) = (shape.time, shape.low);
    let (middle, high) = (low.saturating_sub(LEVELS / 2), low.saturating_sub(LEVELS));
    for run in shape.runs {
        let (start, end) = (time.start(run.first), time.end(run.last));
        let slope = SLOPE.min(end.saturating_sub(start) / 2);
        let (from, to) = (start.saturating_add(slope), end.saturating_sub(slope));
        write!(
            out,
            "M{start} {middle}L{from} {high}H{to}L{end} {middle}L{to} {low}H{from}Z"
        )?;
    }
    Ok(())
}

/// Appends what is drawn of runs.
fn push_runs(out: &mut String, shape: Shape<'_>) -> Result<(), AllocError> {
    let class = match shape.scale {
        Scale::Truths => "truth",
        Scale::Numbers { .. } => "numbers",
        Scale::Boxes => "texts",
    };
    write!(out, "<path class=\"{class}\" d=\"")?;
    match shape.scale {
        Scale::Boxes => push_boxes(out, shape)?,
        _ => push_line(out, shape)?,
    }
    out.push_str("\"/>\n")
}

/// Appends the values of runs that have room for them: in the middle of boxes, and above steps. Other boxes have theirs as titles, which
/// show where the mouse is.
fn push_values(
    alloc: Global,
    out: &mut String,
    names: &Names,
    shape: Shape<'_>,
) -> Result<(), Memory> {
    let (time, low) = (shape.time, shape.low);
    for run in shape.runs {
        let (start, end) = (time.start(run.first), time.end(run.last));
        let value = print(alloc, run.value, names)?;
        let fits = width(&value) <= end.saturating_sub(start);
        match shape.scale {
            Scale::Numbers { .. } if fits => {
                let above = height(shape.scale, run.value).saturating_add(40);
                let (x, y) = (start.saturating_add(30), low.saturating_sub(above));
                push_word(out, "value", x, y, &value)?;
            }
            Scale::Boxes if fits => {
                let middle = (start / 2).saturating_add(end / 2);
                let y = low.saturating_sub(LEVELS / 2 - 38);
                push_word(out, "value boxed", middle, y, &value)?;
            }
            Scale::Boxes => {
                let high = low.saturating_sub(LEVELS);
                write!(
                    out,
                    "<path class=\"narrow\" d=\"M{start} {low}V{high}H{end}V{low}Z\">"
                )?;
                write!(out, "<title>{value}</title></path>\n")?;
            }
            _ => {}
        }
    }
    Ok(())
}

/// Appends the least and the most of numbers beside their levels, below and above a long name.
fn push_bounds(
    out: &mut String,
    shape: Shape<'_>,
    least: i64,
    most: i64,
) -> Result<(), AllocError> {
    let x = shape.time.end(0).saturating_sub(60);
    let (y, high) = (shape.low.saturating_add(10), shape.low.saturating_sub(200));
    write!(
        out,
        "<text class=\"bound\" x=\"{x}\" y=\"{y}\">{least}</text>\n"
    )?;
    if least != most {
        write!(
            out,
            "<text class=\"bound\" x=\"{x}\" y=\"{high}\">{most}</text>\n"
        )?;
    }
    Ok(())
}

/// Appends the name of a lane, and whether it is an input's, an output's or another variable's.
fn push_name(out: &mut String, low: usize, side: Side, name: &str) -> Result<(), AllocError> {
    let word = match side {
        Side::Input => "in",
        Side::Output => "out",
        Side::Local => "var",
    };
    let y = low.saturating_sub(95);
    push_word(out, "side", 60, y, word)?;
    push_word(out, side.word(), 280, y, name)
}

/// Appends the lanes of signals below each other.
pub(crate) fn push_lanes(
    alloc: Global,
    out: &mut String,
    names: &Names,
    signals: &[Signal],
    frames: &[Frame<'_>],
    time: Time,
    top: usize,
) -> Result<(), Memory> {
    let right = time.right();
    let mut end = top;
    for (row, signal) in signals.iter().enumerate() {
        for lane in &signal.lanes {
            end = end.saturating_add(LANE);
            let low = end.saturating_sub(BELOW);
            push_name(out, low, signal.side, &lane.name)?;
            write!(out, "<path class=\"grid\" d=\"M60 {end}H{right}\"/>\n")?;
            let found = runs_of(alloc, frames, row, &lane.way)?;
            let runs = found.as_slice();
            let scale = scale_of(kind_of(lane.kind, runs), runs);
            let shape = Shape {
                time,
                low,
                scale,
                runs,
            };
            if let Scale::Numbers { least, most } = scale {
                push_bounds(out, shape, least, most)?;
            }
            push_runs(out, shape)?;
            push_values(alloc, out, names, shape)?;
        }
    }
    Ok(())
}
