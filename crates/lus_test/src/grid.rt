//! Small tables of text, whose columns stand under one another.

use lus_values::Memory;
use std::alloc::Global;

/// The characters of a text.
fn width_of(text: &str) -> usize {
    let mut width = 0usize;
    for _letter in text.chars() {
        width = width.saturating_add(1);
    }
    width
}

/// How wide each column is.
fn widths_of(alloc: Global, lines: &[Vec<String>]) -> Result<Vec<usize>, Memory> {
    let mut widths: Vec<usize> = Vec::new(alloc);
    for line in lines {
        for (place, cell) in line.iter().enumerate() {
            let width = width_of(cell.as_str());
            match widths.get_mut(place) {
                Some(widest) => *widest = width.max(*widest),
                None => widths.push(width)?,
            }
        }
    }
    Ok(widths)
}

fn push_blanks(text: &mut String, count: usize) -> Result<(), Memory> {
    for _blank in 0..count {
        text.push_str(" ")?;
    }
    Ok(())
}

/// Appends a line whose cells have these widths. No blank stands at its end.
fn push_line(text: &mut String, widths: &[usize], line: &[String]) -> Result<(), Memory> {
    let mut blanks = 2usize;
    for (place, cell) in line.iter().enumerate() {
        push_blanks(text, blanks)?;
        text.push_str(cell.as_str())?;
        let width = widths.get(place).copied().unwrap_or(0);
        blanks = width
            .saturating_sub(width_of(cell.as_str()))
            .saturating_add(2);
    }
    text.push_str("\n")?;
    Ok(())
}

/// Appends lines of cells, each column as wide as its widest cell.
pub(crate) fn push_grid(
    text: &mut String,
    alloc: Global,
    lines: &[Vec<String>],
) -> Result<(), Memory> {
    let widths = widths_of(alloc, lines)?;
    for line in lines {
        push_line(text, &widths, line)?;
    }
    Ok(())
}
