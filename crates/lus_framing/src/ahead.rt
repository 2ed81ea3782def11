//! Reading ahead, by which what waits is told, and going on behind what is no message.

ghost use Rattle.std.specs.Prelude.{◌≤◌, None, length};

use crate::error::FrameError;
use crate::reading::NAME;
use lus_devices::{Failure, Source};

/// A device of which up to 4096 bytes are read ahead. Nothing is said of what it has left.
#[derive(Drop)]
pub struct Ahead<'s, S> {
    source: &'s mut S,
    buffer: [u8; 4096],
    from: usize,
    to: usize,
    /// What is given before the bytes of the buffer.
    again: &'static [u8],
    ghost ordered: { from ≤ to },
    ghost within: { to ≤ 4096 },
}

impl<'s, S: Source> Ahead<'s, S> {
    /// A device of which nothing is read ahead yet.
    pub fn new(source: &'s mut S) -> Ahead<'s, S> {
        Ahead {
            source,
            buffer: [0; 4096],
            from: 0,
            to: 0,
            again: b"",
        }
    }

    /// Whether bytes were read ahead, so that more than what was taken was sent.
    pub fn is_waiting(&self) -> bool {
        self.from < self.to
    }

    /// Reads ahead where nothing is left of what was.
    fn fill(&mut self) -> Result<(), Failure> {
        if self.from == self.to {
            self.from = 0;
            self.to = 0;
            self.to = self.source.read(&mut self.buffer)?;
        }
        Ok(())
    }

    /// Passes bytes up to the next `NAME`, which is read again, or the end.
    pub fn pass_to_head(&mut self) -> Result<(), FrameError> {
        let mut byte = [0; 1];
        let mut found = 0;
        for _passed in 0..u64::MAX {
            if found == NAME.len() {
                self.again = NAME;
                return Ok(());
            }
            if self.read(&mut byte)? == 0 {
                return Ok(());
            }
            found = matched(found, byte[0]);
        }
        Ok(())
    }

    /// Passes so many bytes, or those before the end.
    pub fn pass(&mut self, length: usize) -> Result<(), FrameError> {
        let mut buffer = [0; 4096];
        let mut left = length;
        while left > 0 {
            let room = buffer.len().min(left);
            let given = self.read(&mut buffer[..room])?;
            if given == 0 {
                return Ok(());
            }
            left -= given;
        }
        Ok(())
    }
}

/// How many bytes of `NAME` end with a byte, where so many end before it: the first letter of `NAME` stands nowhere else in it.
fn matched(before: usize, byte: u8) -> usize {
    match NAME.get(before) {
        Some(next) if next.eq_ignore_ascii_case(&byte) => before + 1,
        _ if byte.eq_ignore_ascii_case(&NAME[0]) => 1,
        _ => 0,
    }
}

/// Puts the bytes of one slice into another one, as far as it has room, and says how many.
fn give(bytes: &[u8], buffer: &mut [u8]) -> usize
    ensures few { result ≤ length bytes.now }
    ensures within { result ≤ length buffer.new }
{
    let given = buffer.len().min(bytes.len());
    buffer[..given].copy_from_slice(&bytes[..given]);
    given
}

impl<S: Source> Source for Ahead<'_, S> {
    ghost left = { λ _. None };

    ghost failures = { λ _. None };

    fn read(&mut self, buffer: &mut [u8]) -> Result<usize, Failure> {
        if !self.again.is_empty() {
            let given = give(self.again, buffer);
            self.again = &self.again[given..];
            return Ok(given);
        }
        self.fill()?;
        let given = give(&self.buffer[self.from..self.to], buffer);
        self.from += given;
        Ok(given)
    }
}
