//! What stands in a journal at each time.

use crate::titles::title_of;
use lus_diagrams::{Column, Head};
use lus_values::Value;
use std::alloc::{AllocError, Global};

/// What stands at a time: the names of the events before its instant, and the instant's number and entries. At the beginning and at
/// the end there is no instant.
#[derive(Drop)]
pub(crate) struct Frame<'a> {
    pub events: String,
    pub number: Option<u64>,
    pub cells: &'a [Option<Value>],
}

impl<'a> Frame<'a> {
    /// The part of a row's value that these places of fields lead to, where the value is present. Of a structure that is nil each part
    /// is.
    pub(crate) fn part(&self, row: usize, way: &[u32]) -> Option<&'a Value> {
        let mut part = self.cells.get(row)?.as_ref()?;
        for place in way {
            if let Value::Struct(fields) = part
                && let Some(field) = fields.get(*place as usize)
            {
                part = field;
            }
        }
        Some(part)
    }
}

/// The frames of a table: the beginning, each accepted instant, and the end.
pub(crate) fn frames_of(alloc: Global, columns: &[Column]) -> Result<Vec<Frame<'_>>, AllocError> {
    let mut frames = Vec::new(alloc);
    frames.push(Frame {
        events: String::new(alloc),
        number: None,
        cells: &[],
    })?;
    let mut events = String::new(alloc);
    for column in columns {
        if let Head::Instant(number) = column.head {
            frames.push(Frame {
                events,
                number: Some(number),
                cells: column.cells.items(),
            })?;
            events = String::new(alloc);
        } else {
            if !events.is_empty() {
                events.push_str(",")?;
            }
            events.push_str(&title_of(alloc, column.head)?)?;
        }
    }
    frames.push(Frame {
        events,
        number: None,
        cells: &[],
    })?;
    Ok(frames)
}
