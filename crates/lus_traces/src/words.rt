//! Words of pictures.

use crate::markup::push_escaped;
use std::alloc::AllocError;

/// How wide a character of a value is, in tenths of a pixel.
const CHARACTER: usize = 66;

/// How wide a text is, with the room beside it.
pub(crate) fn width(text: &str) -> usize {
    text.len()
        .saturating_mul(CHARACTER)
        .saturating_add(CHARACTER)
}

pub(crate) fn push_word(
    out: &mut String,
    class: &str,
    x: usize,
    y: usize,
    text: &str,
) -> Result<(), AllocError> {
    write!(out, "<text class=\"{class}\" x=\"{x}\" y=\"{y}\">")?;
    push_escaped(out, text)?;
    out.push_str("</text>\n")
}
