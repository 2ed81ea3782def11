//! What is said of a fault.

use crate::edit::Edit;
use lus_syntax::{Place, Refusal, Span};
use std::alloc::{AllocError, Global};

/// A further place of a source that a fault comes from, and what is there.
#[derive(Drop)]
pub struct Related {
    pub span: Span,
    pub label: String,
}

/// A line and a column of a source. Both count from 1, columns in characters.
#[derive(Clone, Copy)]
pub struct Position {
    pub line: usize,
    pub column: usize,
}

/// What is said of a fault: a sentence of its case, the place that it is about where that isn't the refusal's, how many bytes of the
/// line it takes, further places, a note, and a change of the text.
#[derive(Drop)]
pub struct Finding {
    pub sentence: String,
    pub place: Option<Place>,
    pub length: usize,
    pub related: Vec<Related>,
    pub note: Option<String>,
    pub edit: Option<Edit>,
}

impl Finding {
    /// A sentence alone, on so many bytes.
    pub fn new(alloc: Global, sentence: String, length: usize) -> Finding {
        Finding {
            sentence,
            place: None,
            length,
            related: Vec::new(alloc),
            note: None,
            edit: None,
        }
    }

    /// The position that the finding is about: that of the refusal, unless it has a place of its own.
    pub fn position(&self, refusal: &Refusal) -> Position {
        match self.place {
            Some(place) => Position {
                line: place.line,
                column: place.column,
            },
            None => Position {
                line: refusal.line,
                column: refusal.column,
            },
        }
    }

    /// The finding with a note.
    pub fn with_note(self, alloc: Global, note: &str) -> Result<Finding, AllocError> {
        let note = Some(String::from_str(alloc, note)?);
        Ok(Finding { note, ..self })
    }

    /// The finding with a change of the text.
    pub fn with_edit(self, edit: Option<Edit>) -> Finding {
        Finding { edit, ..self }
    }

    /// Adds a further place.
    pub fn relate(&mut self, span: Span, label: String) -> Result<(), AllocError> {
        self.related.push(Related { span, label })?;
        Ok(())
    }
}
