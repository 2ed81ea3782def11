//! Instants in a row with one value.

use crate::frames::Frame;
use lus_values::{Value, same};
use std::alloc::{AllocError, Global};

/// A value that a lane has from an instant on, until another, which are counted from 1.
#[derive(Clone, Copy)]
pub(crate) struct Run<'a> {
    pub first: usize,
    pub last: usize,
    pub value: &'a Value,
}

/// The runs of a row, or of the part of its values that these places of fields lead to: as few as there can be.
pub(crate) fn runs_of<'a>(
    alloc: Global,
    frames: &[Frame<'a>],
    row: usize,
    way: &[u32],
) -> Result<Vec<Run<'a>>, AllocError> {
    let mut runs: Vec<Run<'a>> = Vec::new(alloc);
    for (place, frame) in frames.iter().enumerate() {
        if let Some(value) = frame.part(row, way) {
            match runs.last_mut() {
                Some(run) if run.last == place.saturating_sub(1) && same(run.value, value) => {
                    run.last = place;
                }
                _ => runs.push(Run {
                    first: place,
                    last: place,
                    value,
                })?,
            }
        }
    }
    Ok(runs)
}
