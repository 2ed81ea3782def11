//! The place behind some bytes.

ghost use Rattle.std.specs.Prelude.{◌≡◌, ◌<◌, ◌+◌, ◌-◌, ◌^◌, length};
ghost use Rattle.lus_syntax.specs.Places.{past_one, past, place_behind};
ghost use Rattle.lus_syntax.specs.Reading.{HasRoom};

use crate::token::Place;

/// The place behind one byte. Only the first byte of a character is counted as one.
fn past_one(at: Place, b: u8) -> Place
    requires byte { at.byte < 2 ^ 64 - 1 }
    requires line { at.line < 2 ^ 64 - 1 }
    requires column { at.column < 2 ^ 64 - 1 }
    ensures { result ≡ past_one at b }
{
    let byte = at.byte + 1;
    if b == b'\n' {
        Place {
            byte,
            line: at.line + 1,
            column: 1,
        }
    } else if b < 128 || b >= 192 {
        Place {
            byte,
            line: at.line,
            column: at.column + 1,
        }
    } else {
        Place { byte, ..at }
    }
}

/// The place behind these bytes.
pub(crate) fn past(at: Place, bytes: &[u8]) -> Place
    requires { HasRoom at bytes.now }
    ensures { result ≡ past at bytes.now }
{
    let mut place = at;
    for b in bytes {
        place = past_one(place, *b);
    }
    place
}

/// The place behind the first bytes of a text.
pub fn place_behind(bytes: &[u8]) -> Place
    ensures { result ≡ place_behind bytes.now }
{
    past(Place::START, bytes)
}
