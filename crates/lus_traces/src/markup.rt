//! Texts within markup.

ghost use Rattle.std.specs.Prelude.{◌≡◌, ◌++◌, OnOk, string_bytes};
ghost use Rattle.lus_traces.specs.Markup.{escaped};

use std::alloc::AllocError;

/// Appends a text in which no character is read as markup, or as another one: a carriage return would be read as a line feed, and a zero
/// can't stand in markup, so U+FFFD stands for it.
pub fn push_escaped(out: &mut String, text: &str) -> Result<(), AllocError>
    ensures { OnOk result (string_bytes out.new ≡ string_bytes out.old ++ escaped text.now) }
{
    for letter in text.chars() {
        match letter {
            '<' => out.push_str("&lt;")?,
            '>' => out.push_str("&gt;")?,
            '&' => out.push_str("&amp;")?,
            '"' => out.push_str("&quot;")?,
            '\r' => out.push_str("&#13;")?,
            '\0' => out.push('\u{fffd}')?,
            other => out.push(other)?,
        }
    }
    Ok(())
}
