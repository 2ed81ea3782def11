//! Reading frames.

ghost use Rattle.std.specs.Prelude.{◌≡◌, ◌≤◌, ◌++◌, ℕ, IfOk, IfSome, MatchBool, Ok, Option, drop, map, option_map, take, vec_len, ⊤};
ghost use Rattle.std.specs.Char.{to_ascii_lowercase};
ghost use Rattle.std.specs.Str.Parse.{ParsesUnsigned};
ghost use Rattle.lus_devices.specs.Devices.{with_front};
ghost use Rattle.lus_framing.specs.Frames.{HasReadFrame, HasReadHead, SaysLength, blank, either, field_name};

use crate::error::FrameError;
use lus_devices::Source;
use lus_lines::{Reading, read_line};
use std::alloc::Global;
use std::str;

/// The most bytes of a message.
pub const MOST_MESSAGE_BYTES: usize = 16777216;

/// The most lines of a head.
const MOST_LINES: u32 = 16;

/// The name of the field that says how many bytes follow, with the colon and the blank behind it.
pub(crate) const NAME: &[u8] = b"Content-Length: ";

/// The number that digits write.
fn number_in(digits: &[u8]) -> Option<usize>
    ensures { IfSome result (λ n. ParsesUnsigned {E = ⊤} 64 10 digits.now (Ok n)) }
{
    match str::from_utf8(digits) {
        Ok(text) => text.parse::<usize>().ok(),
        Err(_) => None,
    }
}

/// What stands behind the name of the field that says how many bytes follow.
fn value_in(line: &[u8]) -> Option<&[u8]>
    ensures named { IfSome result (λ v. map to_ascii_lowercase (take 16 line.now) ≡ map to_ascii_lowercase field_name) }
    ensures value { IfSome result (λ v. v.now ≡ drop 16 line.now) }
{
    let (name, value) = line.split_at_checked(16)?;
    if name.eq_ignore_ascii_case(NAME) {
        Some(value)
    } else {
        None
    }
}

/// What stands before the carriage return that ends a line.
fn digits_in(value: &[u8]) -> Option<&[u8]>
    ensures { IfSome result (λ d. value.now ≡ d.now ++ blank) }
{
    let (last, digits) = value.split_last()?;
    if *last == b'\r' { Some(digits) } else { None }
}

/// How many bytes a line of a head says that follow, if it says so.
fn length_in(line: &[u8]) -> Option<usize>
    ensures { IfSome result (λ n. SaysLength line.now n) }
{
    let value = value_in(line)?;
    let digits = digits_in(value)?;
    number_in(digits)
}

/// How many bytes a line says that follow, or else lines before it.
fn length_after(line: &[u8], before: Option<usize>) -> Option<usize>
    ensures { (here : Option ℕ) × IfSome here (λ n. SaysLength line.now n) × (result ≡ either here before) }
{
    match length_in(line) {
        Some(length) => Some(length),
        None => before,
    }
}

/// Whether a line ends a head.
fn is_blank(line: &[u8]) -> bool
    ensures { MatchBool result (line.now ≡ blank) (line.now ≡ blank → ⊥) }
{
    line == b"\r".as_slice()
}

/// Reads a head, and says how many bytes follow it; nothing where the input ends before it.
fn read_head<S: Source>(source: &mut S, line: &mut Vec<u8>) -> Result<Option<usize>, FrameError>
    ensures { IfOk result (λ o. HasReadHead o (S.left source.old) (S.left source.new)) }
{
    let mut length = None;
    for number in 0..MOST_LINES {
        match read_line(source, line)? {
            Reading::Line => {}
            Reading::Long => return Err(FrameError::Head),
            Reading::End if number == 0 => return Ok(None),
            Reading::Unfinished | Reading::End => return Err(FrameError::End),
        }
        if is_blank(line) {
            return match length {
                Some(length) => Ok(Some(length)),
                None => Err(FrameError::Head),
            };
        }
        length = length_after(line, length);
    }
    Err(FrameError::Head)
}

/// Reads so many bytes, or those before the end.
fn read_body<S: Source>(alloc: Global, source: &mut S, length: usize) -> Result<Vec<u8>, FrameError>
    ensures read { IfOk result (λ v. S.left source.old ≡ with_front v.items (S.left source.new)) }
    ensures within { IfOk result (λ v. vec_len v ≤ length) }
{
    let mut bytes = Vec::new(alloc);
    let mut buffer = [0; 4096];
    while bytes.len() < length {
        let room = buffer.len().min(length - bytes.len());
        let given = source.read(&mut buffer[..room])?;
        if given == 0 {
            return Ok(bytes);
        }
        bytes.extend_from_slice(&buffer[..given])?;
    }
    Ok(bytes)
}

/// Reads a message: a head, and as many bytes behind it as the head says. Nothing where the input ends before a head. No memory is
/// taken for a message of more than `MOST_MESSAGE_BYTES` bytes, whose head alone is read then. Behind a head that doesn't say how many
/// bytes follow it isn't known where the next one begins.
pub fn read_frame<S: Source>(
    alloc: Global,
    source: &mut S,
    line: &mut Vec<u8>,
) -> Result<Option<Vec<u8>>, FrameError>
    ensures { IfOk result (λ o. HasReadFrame (option_map (λ v. v.items) o) (S.left source.old) (S.left source.new)) }
{
    let Some(length) = read_head(source, line)? else {
        return Ok(None);
    };
    if length > MOST_MESSAGE_BYTES {
        return Err(FrameError::Long(length));
    }
    let message = read_body(alloc, source, length)?;
    if message.len() < length {
        return Err(FrameError::End);
    }
    Ok(Some(message))
}
