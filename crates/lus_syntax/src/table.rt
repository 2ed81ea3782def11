//! Tables of texts.

ghost use Rattle.std.specs.Prelude.{◌≡◌};
ghost use Rattle.lus_syntax.specs.Texts.{look_up};
ghost use Rattle.std.specs.Str.{bytes_eq};
ghost use Rattle.lus_syntax.specs.Reading.{begins_with, first_len, rows};

// Lengths and first bytes tell most texts apart, so they are compared before all the bytes are.
fn is_same(key: &str, text: &str) -> bool
    ensures { result ≡ bytes_eq key.now text.now }
{
    if key.len() != text.len() {
        return false;
    }
    match (key.as_bytes(), text.as_bytes()) {
        ([k, ..], [t, ..]) if *k != *t => false,
        _ => key == text,
    }
}

// The first bytes are compared before all of the key, since they tell most keys apart.
fn begins_with(bytes: &[u8], key: &[u8]) -> bool
    ensures { result ≡ begins_with bytes.now key.now }
{
    match (bytes, key) {
        ([b, ..], [k, ..]) if *b != *k => false,
        _ => bytes.starts_with(key),
    }
}

/// What stands in the table at a text.
pub(crate) fn look_up<T: Copy>(table: &[(&str, T)], text: &str) -> Option<T>
    ensures { result ≡ look_up text.now (rows table.now) }
{
    for (key, value) in table {
        if is_same(key, text) {
            return Some(*value);
        }
    }
    None
}

/// The length of the first text of the table with which the bytes begin.
pub(crate) fn first_len<T>(table: &[(&str, T)], bytes: &[u8]) -> Option<usize>
    ensures { result ≡ first_len bytes.now (rows table.now) }
{
    for (key, _) in table {
        if begins_with(bytes, key.as_bytes()) {
            return Some(key.len());
        }
    }
    None
}
