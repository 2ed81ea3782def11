//! The lines of a file of journals.

ghost use Rattle.std.specs.Prelude.{◌≡◌, IfOk, map};
ghost use Rattle.lus_traces.specs.Pages.{line_seen, whole_lines};

use crate::cutting::parts_between;
use std::alloc::{AllocError, Global};

/// A line of a file, and the lines that a page has behind it.
#[derive(Drop)]
pub struct Line<'a> {
    pub text: &'a str,
    pub further: Vec<String>,
}

/// The lines of a file, with none behind them. What stands behind the last line feed is no whole line, and is left out.
pub fn lines_of<'a>(alloc: Global, text: &'a str) -> Result<Vec<Line<'a>>, AllocError>
    ensures { IfOk result (λ v. map line_seen v.items ≡ whole_lines text.now) }
{
    let mut lines = Vec::new(alloc);
    let parts = parts_between(alloc, text, '\n')?;
    let whole = parts.len().saturating_sub(1);
    for text in &parts[..whole] {
        lines.push(Line {
            text: *text,
            further: Vec::new(alloc),
        })?;
    }
    Ok(lines)
}
