//! Reading lines of any length.

ghost use Rattle.std.specs.Prelude.{◌≡◌, IfOk};
ghost use Rattle.lus_lines.specs.Lines.{HasReadWhole, last_whole};

use crate::error::LineError;
use lus_devices::Source;

/// What was read of a device where its next line begins, however long that is.
#[derive(Clone, Copy, PartialEq, Eq, Debug)]
pub enum Whole {
    /// A line, which is given with its line feed.
    Line,
    /// Bytes that the end follows in place of a line feed, which are given.
    Unfinished,
    /// Nothing, at the end.
    End,
}

/// Reads the next line, with its line feed, or what is left before the end. All of it is kept.
pub fn read_whole_line<S: Source>(source: &mut S, line: &mut Vec<u8>) -> Result<Whole, LineError>
    ensures { IfOk result (λ r. HasReadWhole r line.new.items (S.left source.old) (S.left source.new)) }
{
    line.clear();
    let mut byte = [0; 1];
    for _byte in 0..u64::MAX {
        let given = source.read(&mut byte)?;
        if given == 0 {
            return Ok(last_whole(line));
        }
        line.push(byte[0])?;
        if byte[0] == b'\n' {
            return Ok(Whole::Line);
        }
    }
    Err(LineError::Memory)
}

/// What the end behind these bytes makes of them.
fn last_whole(bytes: &[u8]) -> Whole
    ensures { result ≡ last_whole bytes.now }
{
    if bytes.is_empty() {
        Whole::End
    } else {
        Whole::Unfinished
    }
}
