//! Journals as a page of HTML that shows their signals over time, without a network.

ghost use Rattle.std.specs.Prelude.{◌≡◌, ◌++◌, IfOk, OnOk, flat_map, map, string_bytes};
ghost use Rattle.lus_traces.specs.Pages.{line_seen, line_text, page_text, row_text};

use crate::acting::ACTING;
use crate::document::OPENING;
use crate::lines::Line;
use crate::markup::push_escaped;
use crate::reading::READING;
use crate::showing::SHOWING;
use std::alloc::{AllocError, Global};

/// Appends a line in which no character is read as markup.
fn push_row(out: &mut String, text: &str) -> Result<(), AllocError>
    ensures { OnOk result (string_bytes out.new ≡ string_bytes out.old ++ row_text text.now) }
{
    push_escaped(out, text)?;
    out.push_str("\n")
}

/// Appends a line, and the further lines behind it.
fn push_line(out: &mut String, line: &Line<'_>) -> Result<(), AllocError>
    ensures { OnOk result (string_bytes out.new ≡ string_bytes out.old ++ line_text (line_seen line.now)) }
{
    push_row(out, line.text)?;
    for further in &line.further {
        push_row(out, further.as_str())?;
    }
    Ok(())
}

/// The page of a file of journals.
pub fn html(alloc: Global, lines: &[Line<'_>]) -> Result<String, AllocError>
    ensures { IfOk result (λ s. string_bytes s ≡ page_text (map line_seen lines.now)) }
{
    let mut out = String::from_str(alloc, OPENING)?;
    for line in lines {
        push_line(&mut out, line)?;
    }
    out.push_str(READING)?;
    out.push_str(SHOWING)?;
    out.push_str(ACTING)?;
    Ok(out)
}
