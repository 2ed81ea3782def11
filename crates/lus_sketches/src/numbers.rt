//! Numbers in words.

ghost use Rattle.std.specs.Prelude.{◌≡◌, ◌^◌, IfOk};
ghost use Rattle.lus_asked.specs.Reading.{begins_number, number_below};

use lus_values::Memory;

/// Whether a number begins here, without a `+`.
fn begins_number(text: &[u8]) -> bool
    ensures { result ≡ begins_number text.now }
{
    match text {
        [first, ..] => *first == b'-' || first.is_ascii_digit(),
        [] => false,
    }
}

/// A number of 64 bits, if the text is one.
pub fn number(text: &str) -> Option<u64>
    ensures { result ≡ number_below (2 ^ 64) text.now }
{
    if begins_number(text.as_bytes()) {
        text.parse::<u64>().ok()
    } else {
        None
    }
}

/// A count as a number of 32 bits.
pub(crate) fn number_of(count: usize) -> Result<u32, Memory>
    ensures { IfOk result (λ n. n ≡ count) }
{
    match u32::try_from(count) {
        Ok(number) => Ok(number),
        Err(_) => Err(Memory),
    }
}
