//! Lines of a source as they are shown: of a long one only what stands round a column.

use std::alloc::{AllocError, Global};

/// The most characters of a line that are shown.
const MOST_SHOWN: usize = 200;

/// How many characters of a line aren't shown before those round a column: none of a line that is shown whole.
fn left_out(line: &str, column: usize) -> usize {
    if line.chars().count() <= MOST_SHOWN {
        0
    } else {
        column.saturating_sub(101)
    }
}

/// What stands where a line is cut.
fn dots(is_cut: bool) -> &'static str {
    if is_cut { ".." } else { "" }
}

/// Appends what is shown of a line round a column, with dots where it is cut, and a line feed.
pub(crate) fn push_cited(
    alloc: Global,
    text: &mut String,
    line: &str,
    column: usize,
) -> Result<(), AllocError> {
    let from = left_out(line, column);
    let part: String = line.chars().skip(from).take(MOST_SHOWN).collect(alloc)?;
    let front = dots(from > 0);
    let behind = dots(line.chars().count().saturating_sub(from) > MOST_SHOWN);
    write!(text, "{front}{part}{behind}\n")
}

/// What stands under a character: a caret from a column on, before it a tab under a tab, and nothing where the character isn't shown.
fn mark_under(byte: u8, at: usize, from: usize, column: usize) -> &'static str {
    if at >= column {
        "^"
    } else if at <= from {
        ""
    } else if byte == b'\t' {
        "\t"
    } else {
        " "
    }
}

/// Appends carets under so many bytes of a line from a column on, one at least and none behind what is shown, with blanks before them.
fn push_carets(
    text: &mut String,
    line: &str,
    column: usize,
    length: usize,
) -> Result<(), AllocError> {
    let from = left_out(line, column);
    let last = from.saturating_add(MOST_SHOWN);
    let mut at = 0usize;
    let mut left = length;
    for byte in line.as_bytes() {
        let begins = *byte < 128 || *byte >= 192;
        if begins {
            at = at.saturating_add(1);
            if at > last || (at > column && left == 0) {
                return Ok(());
            }
            text.push_str(mark_under(*byte, at, from, column))?;
        }
        if at >= column {
            left = left.saturating_sub(1);
        }
    }
    if at < column {
        text.push_str("^")?;
    }
    Ok(())
}

/// Appends what is shown of a line, and marks under so many bytes from a column on, each with a line feed.
pub(crate) fn push_marked(
    alloc: Global,
    text: &mut String,
    line: &str,
    column: usize,
    length: usize,
) -> Result<(), AllocError> {
    push_cited(alloc, text, line, column)?;
    if left_out(line, column) > 0 {
        text.push_str("  ")?;
    }
    push_carets(text, line, column, length)?;
    text.push_str("\n")
}
