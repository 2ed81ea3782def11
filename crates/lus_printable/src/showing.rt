//! Names and lines of files, printed so that they can't move the cursor or hide what stands beside them.

ghost use Rattle.std.specs.Prelude.{◌≡◌, ◌++◌, IfOk, OnOk, string_bytes, true};
ghost use Rattle.std.specs.List.{list_all};
ghost use Rattle.std.specs.Str.{chars};
ghost use Rattle.lus_printable.specs.Printable.{is_hidden, is_seen, is_turning, printable, shown};

use std::alloc::{AllocError, Global};

/// Whether a character has others beside it stand in another order.
fn is_turning(letter: char) -> bool
    ensures { result ≡ is_turning letter }
{
    matches!(
        letter,
        '\u{61c}' | '\u{200e}'..='\u{200f}' | '\u{202a}'..='\u{202e}' | '\u{2066}'..='\u{2069}'
    )
}

/// Whether a character isn't seen itself, and changes what is seen. The end of a line is none.
fn is_hidden(letter: char) -> bool
    ensures { result ≡ is_hidden letter }
{
    (letter.is_control() && letter != '\n') || is_turning(letter)
}

fn push_shown(text: &mut String, letter: char) -> Result<(), AllocError>
    ensures { OnOk result (string_bytes text.new ≡ string_bytes text.old ++ shown letter) }
{
    if is_hidden(letter) {
        let number = u32::from(letter);
        write!(text, "\\u{{{number:x}}}")
    } else {
        text.push(letter)
    }
}

/// Bytes of a file as a text that may be printed: a control character that is no line feed, or one that changes the order of those beside
/// it, stands as its number, `\u{1b}`, and U+FFFD stands for what is no UTF-8.
pub fn printable(alloc: Global, bytes: &[u8]) -> Result<String, AllocError>
    ensures exact { IfOk result (λ text. string_bytes text ≡ printable bytes.now) }
    ensures seen { IfOk result (λ text. list_all is_seen (chars (string_bytes text)) ≡ true) }
{
    let given = String::from_utf8_lossy(alloc, bytes)?;
    let mut text = String::new(alloc);
    for letter in given.chars() {
        push_shown(&mut text, letter)?;
    }
    Ok(text)
}

/// Appends bytes of a file as they may be printed.
pub fn push_printable(alloc: Global, text: &mut Vec<u8>, bytes: &[u8]) -> Result<(), AllocError>
    ensures { OnOk result (text.new.items ≡ text.old.items ++ printable bytes.now) }
{
    let shown = printable(alloc, bytes)?;
    text.extend_from_slice(shown.as_bytes())
}
