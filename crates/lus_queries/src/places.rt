//! Positions in a text as editors count them.

ghost use Rattle.std.specs.Prelude.{◌≡◌, ◌+◌, ◌*◌, ◌<◌, ◌≤◌, ◌^◌, length};
ghost use Rattle.lus_queries.specs.Spots.{begins_with_feed, ends_line, past, spot_after, units_at};

use lus_syntax::Span;
use std::alloc::{AllocError, Global};

/// A line and a character on it. Both count from 0, characters in units of UTF-16.
#[derive(Clone, Copy)]
pub struct Spot {
    pub line: usize,
    pub character: usize,
}

/// The spot at which a text begins.
pub(crate) const START: Spot = Spot {
    line: 0,
    character: 0,
};

/// How many units of UTF-16 the character takes that begins with a byte of UTF-8; none where no character begins.
fn units_at(byte: u8) -> usize
    ensures { result ≡ units_at byte }
{
    if byte < 128 {
        1
    } else if byte < 192 {
        0
    } else if byte < 240 {
        1
    } else {
        2
    }
}

fn begins_with_feed(bytes: &[u8]) -> bool
    ensures { result ≡ begins_with_feed bytes.now }
{
    match bytes {
        [first, ..] => *first == b'\n',
        [] => false,
    }
}

/// Whether a line ends with a byte that others follow: a line feed, or a carriage return that none follows.
fn ends_line(byte: u8, behind: &[u8]) -> bool
    ensures { result ≡ ends_line byte behind.now }
{
    byte == b'\n' || (byte == b'\r' && !begins_with_feed(behind))
}

/// The spot behind a byte that others follow.
pub(crate) fn past(spot: Spot, byte: u8, behind: &[u8]) -> Spot
    ensures { spot.line + 1 < 2 ^ 64 → spot.character + 2 < 2 ^ 64 → result ≡ past spot byte behind.now }
{
    if ends_line(byte, behind) {
        Spot {
            line: spot.line.saturating_add(1),
            character: 0,
        }
    } else {
        Spot {
            line: spot.line,
            character: spot.character.saturating_add(units_at(byte)),
        }
    }
}

/// The spot so many bytes on, or that at the end.
pub(crate) fn spot_after(from: Spot, bytes: &[u8], count: usize) -> Spot
    requires line { from.line + length bytes.now < 2 ^ 64 }
    requires character { from.character + 2 * length bytes.now < 2 ^ 64 }
    ensures { result ≡ spot_after from count bytes.now }
{
    let mut spot = from;
    let mut rest = bytes;
    for _passed in 0..count {
        let Some((byte, behind)) = rest.split_first() else {
            return spot;
        };
        spot = past(spot, *byte, behind);
        rest = behind;
    }
    spot
}

/// How many bytes stand between the marks of a text.
const STRIDE: usize = 64;

/// A text, with the spots of each 64th byte of it.
#[derive(Drop)]
pub struct Lines<'t> {
    text: &'t str,
    marks: Vec<Spot>,
}

/// The spot that one place leads to from another, where it is the second from the start.
fn joined(from: Spot, on: Spot) -> Spot {
    if on.line == 0 {
        Spot {
            line: from.line,
            character: from.character.saturating_add(on.character),
        }
    } else {
        Spot {
            line: from.line.saturating_add(on.line),
            character: on.character,
        }
    }
}

/// The lines of a text.
pub fn lines_of(alloc: Global, text: &str) -> Result<Lines<'_>, AllocError> {
    let mut marks = Vec::new(alloc);
    let mut mark = START;
    let mut rest = text.as_bytes();
    marks.push(mark)?;
    while rest.len() >= STRIDE {
        mark = joined(mark, spot_after(START, rest, STRIDE));
        marks.push(mark)?;
        rest = &rest[STRIDE..];
    }
    Ok(Lines { text, marks })
}

/// Whether a mark stands before a spot or at it.
fn is_before(mark: Spot, spot: Spot) -> bool {
    mark.line < spot.line || (mark.line == spot.line && mark.character <= spot.character)
}

impl Lines<'_> {
    /// A mark, and what stands behind it.
    fn mark(&self, place: usize) -> (Spot, &[u8]) {
        let start = place.saturating_mul(STRIDE);
        match (self.marks.get(place), self.text.as_bytes().get(start..)) {
            (Some(mark), Some(rest)) => (*mark, rest),
            _ => (START, b""),
        }
    }

    /// The spot of a byte of the text, or of its end.
    pub fn spot(&self, byte: usize) -> Spot {
        let byte = byte.min(self.text.len());
        let (mark, rest) = self.mark(byte / STRIDE);
        joined(mark, spot_after(START, rest, byte % STRIDE))
    }

    /// The byte of a spot; the end of its line or of the text where there is no such spot.
    pub fn byte_at(&self, spot: Spot) -> usize {
        let before = self.marks.partition_point(|mark| is_before(*mark, spot));
        let place = before.saturating_sub(1);
        let (mut here, mut rest) = self.mark(place);
        let mut at = place.saturating_mul(STRIDE);
        while let Some((byte, behind)) = rest.split_first() {
            let is_end = *byte == b'\n' || *byte == b'\r';
            let is_reached = units_at(*byte) > 0 && here.character >= spot.character;
            if here.line >= spot.line && (is_end || is_reached) {
                return at;
            }
            here = past(here, *byte, behind);
            at = at.saturating_add(1);
            rest = behind;
        }
        self.text.len()
    }
}

/// Appends the range from one byte to another.
pub fn push_range(
    text: &mut String,
    lines: &Lines<'_>,
    from: usize,
    to: usize,
) -> Result<(), AllocError> {
    let start = lines.spot(from);
    let end = lines.spot(to);
    write!(
        text,
        "{{\"start\":{{\"line\":{},\"character\":{}}},\"end\":{{\"line\":{},\"character\":{}}}}}",
        start.line, start.character, end.line, end.character
    )
}

/// Appends the range of a span.
pub fn push_span(text: &mut String, lines: &Lines<'_>, span: Span) -> Result<(), AllocError> {
    push_range(text, lines, span.start.byte, span.end().byte)
}
