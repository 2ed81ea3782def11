//! Whole numbers, from their texts.

ghost use Rattle.std.specs.Prelude.{◌≡◌, ◌^◌};
ghost use Rattle.lus_asked.specs.Reading.{begins_number, integer, number_below};

/// Whether a number begins here: a digit, or a sign.
pub(crate) fn begins_number(text: &[u8]) -> bool
    ensures { result ≡ begins_number text.now }
{
    match text {
        [first, ..] => *first == b'-' || first.is_ascii_digit(),
        [] => false,
    }
}

/// A number of 64 bits without a sign.
pub fn natural(text: &str) -> Option<u64>
    ensures { result ≡ number_below (2 ^ 64) text.now }
{
    if begins_number(text.as_bytes()) {
        text.parse::<u64>().ok()
    } else {
        None
    }
}

/// A number of 64 bits behind its sign.
pub(crate) fn integer(text: &str) -> Option<i64>
    ensures { result ≡ integer text.now }
{
    if begins_number(text.as_bytes()) {
        text.parse::<i64>().ok()
    } else {
        None
    }
}
