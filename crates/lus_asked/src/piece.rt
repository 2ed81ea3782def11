//! The pieces of a line: what stands behind a front, and words.

ghost use Rattle.std.specs.Prelude.{◌≡◌, option_map};
ghost use Rattle.std.specs.List.{list_all, prefix_len};
ghost use Rattle.std.specs.Char.{is_ascii};
ghost use Rattle.lus_asked.specs.Separations.{IsSeparated};
ghost use Rattle.lus_asked.specs.Reading.{after, ascii, ends_word, past_word, word_len, word_of};

use std::str::from_utf8;

/// What stands behind a front, where the text has it.
pub(crate) fn after<'a>(front: &[u8], text: &'a [u8]) -> Option<&'a [u8]>
    ensures { option_map (λ rest. rest.now) result ≡ after front.now text.now }
{
    text.strip_prefix(front)
}

/// What stands behind an item of a list.
#[derive(Clone, Copy)]
pub(crate) enum Separation<'a> {
    /// The end of the list, and this behind it.
    End(&'a [u8]),
    /// A separator, and this behind it.
    Item(&'a [u8]),
    Neither,
}

/// Whether a list ends here, or goes on.
pub(crate) fn separate<'a>(close: &[u8], separator: &[u8], text: &'a [u8]) -> Separation<'a>
    ensures { IsSeparated result (after close.now text.now) (after separator.now text.now) }
{
    if let Some(rest) = after(close, text) {
        return Separation::End(rest);
    }
    match after(separator, text) {
        Some(later) => Separation::Item(later),
        None => Separation::Neither,
    }
}

fn ends_word(byte: u8) -> bool
    ensures { result ≡ ends_word byte }
{
    byte == b' '
        || (byte == b')' || (byte == b',' || (byte == b';' || (byte == b'{' || byte == b'}'))))
}

#[tactic(auto, unfolding(crate::specs::Reading::word_len))]
fn word_len(text: &[u8]) -> usize
    ensures { result ≡ word_len text.now }
{
    text.iter().take_while(|byte| !ends_word(**byte)).count()
}

/// The word at the front of a text, and what stands behind it.
pub(crate) fn split_word(text: &[u8]) -> (&[u8], &[u8])
    ensures word { result.0.now ≡ word_of text.now }
    ensures rest { result.1.now ≡ past_word text.now }
{
    text.split_at(word_len(text))
}

fn is_ascii(text: &[u8]) -> bool
    ensures { result ≡ list_all is_ascii text.now }
{
    text.iter().all(|byte| byte.is_ascii())
}

/// A text of ASCII, if it is one.
#[tactic(auto, unfolding(crate::specs::Reading::ascii))]
pub(crate) fn ascii(text: &[u8]) -> Option<&str>
    ensures { option_map (λ t. t.now) result ≡ ascii text.now }
{
    if is_ascii(text) {
        from_utf8(text).ok()
    } else {
        None
    }
}
