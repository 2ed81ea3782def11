//! Reading lines.

ghost use Rattle.std.specs.Prelude.{◌≡◌, IfOk};
ghost use Rattle.lus_lines.specs.Lines.{HasRead, HasSkipped, last_reading, long_reading};

use crate::error::LineError;
use lus_devices::Source;

/// The most bytes of a line that is given.
pub const MOST_LINE_BYTES: usize = 1048576;

/// What was read of a device where its next line begins.
#[derive(Clone, Copy, PartialEq, Eq, Debug)]
pub enum Reading {
    /// A line, which is given without its line feed.
    Line,
    /// A line of more bytes than are given.
    Long,
    /// Bytes that the end follows in place of a line feed.
    Unfinished,
    /// Nothing, at the end.
    End,
}

/// Reads the bytes up to a line feed, and that too, and says whether there is one before the end.
fn skip_line<S: Source>(source: &mut S) -> Result<bool, LineError>
    ensures { IfOk result (λ ended. HasSkipped ended (S.left source.old) (S.left source.new)) }
{
    let mut byte = [0; 1];
    for _skipped in 0..u64::MAX {
        let given = source.read(&mut byte)?;
        if given == 0 {
            return Ok(false);
        }
        if byte[0] == b'\n' {
            return Ok(true);
        }
    }
    Err(LineError::Read)
}

/// Reads the next line. Of one that is too long no more is kept than that it was.
pub fn read_line<S: Source>(source: &mut S, line: &mut Vec<u8>) -> Result<Reading, LineError>
    ensures { IfOk result (λ r. HasRead r line.new.items (S.left source.old) (S.left source.new)) }
{
    line.clear();
    let mut byte = [0; 1];
    while line.len() <= MOST_LINE_BYTES {
        let given = source.read(&mut byte)?;
        if given == 0 {
            return Ok(last_reading(line));
        }
        if byte[0] == b'\n' {
            return Ok(Reading::Line);
        }
        line.push(byte[0])?;
    }
    let ended = skip_line(source)?;
    Ok(long_reading(ended))
}

/// What the end behind these bytes makes of them.
fn last_reading(bytes: &[u8]) -> Reading
    ensures { result ≡ last_reading bytes.now }
{
    if bytes.is_empty() {
        Reading::End
    } else {
        Reading::Unfinished
    }
}

/// What a line too long is, which a line feed ended or not.
fn long_reading(ended: bool) -> Reading
    ensures { result ≡ long_reading ended }
{
    if ended {
        Reading::Long
    } else {
        Reading::Unfinished
    }
}
