//! Messages as they come. Of changes of one document that wait behind one another only the last is given.

use crate::answers::Problem;
use crate::messages::{changed_document, parse};
use lus_devices::Source;
use lus_framing::{Ahead, FrameError, read_frame};
use std::alloc::{AllocError, Global};

/// What comes where a message is to come.
#[derive(Drop)]
pub(crate) enum Incoming {
    Message(Vec<u8>),
    /// What is no message that can be served, and why.
    Fault(Problem),
}

impl Incoming {
    /// Whether it changes the document of a name.
    fn changes(&self, alloc: Global, name: &str) -> Result<bool, AllocError> {
        Ok(match self.changed(alloc)? {
            Some(changed) => changed.as_str() == name,
            None => false,
        })
    }

    /// The name of the document that it changes, if it is such a message.
    fn changed(&self, alloc: Global) -> Result<Option<String>, AllocError> {
        let Incoming::Message(message) = self else {
            return Ok(None);
        };
        let parsed = parse(alloc, message)?;
        match parsed.as_ref().and_then(changed_document) {
            Some(name) => Ok(Some(String::from_str(alloc, name)?)),
            None => Ok(None),
        }
    }
}

/// An input of messages.
#[derive(Drop)]
pub(crate) struct Inbox<'i, I> {
    input: Ahead<'i, I>,
    line: Vec<u8>,
    kept: Option<Incoming>,
}

impl<'i, I: Source> Inbox<'i, I> {
    /// An input of which nothing was read yet.
    pub fn new(alloc: Global, input: &'i mut I) -> Inbox<'i, I> {
        Inbox {
            input: Ahead::new(input),
            line: Vec::new(alloc),
            kept: None,
        }
    }

    /// What comes next, but for changes that other ones of the same document follow; nothing at the end.
    pub fn next(&mut self, alloc: Global) -> Result<Option<Incoming>, FrameError> {
        let first = match self.kept.take() {
            Some(kept) => Some(kept),
            None => self.read(alloc)?,
        };
        match first {
            Some(first) if self.input.is_waiting() => self.last(alloc, first),
            _ => Ok(first),
        }
    }

    /// The last of the changes that follow this one, as far as they wait; what comes behind it is kept.
    fn last(&mut self, alloc: Global, first: Incoming) -> Result<Option<Incoming>, FrameError> {
        let Some(name) = first.changed(alloc)? else {
            return Ok(Some(first));
        };
        let mut found = first;
        for _passed in 0..u64::MAX {
            if !self.input.is_waiting() {
                return Ok(Some(found));
            }
            match self.read(alloc)? {
                Some(later) if later.changes(alloc, name.as_str())? => found = later,
                later => {
                    self.kept = later;
                    return Ok(Some(found));
                }
            }
        }
        Ok(Some(found))
    }

    /// Reads what comes next; nothing at the end.
    fn read(&mut self, alloc: Global) -> Result<Option<Incoming>, FrameError> {
        match read_frame(alloc, &mut self.input, &mut self.line) {
            Ok(Some(message)) => Ok(Some(Incoming::Message(message))),
            Ok(None) => Ok(None),
            Err(FrameError::Long(length)) => {
                self.input.pass(length)?;
                Ok(Some(Incoming::Fault(Problem::Long)))
            }
            Err(FrameError::Head) => {
                self.input.pass_to_head()?;
                Ok(Some(Incoming::Fault(Problem::Head)))
            }
            Err(error) => Err(error),
        }
    }
}
