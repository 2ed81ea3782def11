//! What is said of a table: a line, and where it doesn't pass the rows up to there.

use crate::finding::{Finding, Outputs, cell_at, is_met, row_at};
use crate::grid::push_grid;
use crate::testing::Tested;
use csv::ByteRecord;
use lus_asked::read_word;
use lus_live_instance::lus_machine::Reply;
use lus_printable::printable;
use lus_program::{Declared, Program};
use lus_records::{all_columns, bytes_of, cells_of};
use lus_refusals::lus_culprits::{push_name, push_unknown};
use lus_refusals::{push_refusal, why_word};
use lus_values::Memory;
use std::alloc::Global;

/// The word of what is absent.
const ABSENT: &[u8] = b"-";

/// How many rows are shown before the one that is told.
const ROWS_BEFORE: usize = 5;

/// A table that was tried, with the name of its file and the place of its node.
#[derive(Drop)]
pub(crate) struct Report<'t> {
    pub name: &'t str,
    pub node: usize,
    pub outputs: Outputs<'t>,
    pub head: &'t ByteRecord,
    pub rows: &'t [ByteRecord],
    pub tested: &'t Tested,
}

/// The line of a file on which a record begins.
pub(crate) fn line_of(record: Option<&ByteRecord>) -> u64 {
    let Some(record) = record else {
        return 1;
    };
    match record.position() {
        Some(position) => position.line(),
        None => 1,
    }
}

/// A cell as it is shown: a dash for one that is empty.
fn shown(alloc: Global, cell: &[u8]) -> Result<String, Memory> {
    if cell.is_empty() {
        return Ok(String::from_str(alloc, "-")?);
    }
    Ok(printable(alloc, cell)?)
}

/// The words that a program has for values, but for numbers.
fn words_of(alloc: Global, program: &Program) -> Result<Vec<&str>, Memory> {
    let mut words = Vec::new(alloc);
    words.push("true")?;
    words.push("false")?;
    for declared in &program.types {
        if let Declared::Enumeration(constructors) = declared {
            for constructor in constructors {
                words.push(constructor.as_str())?;
            }
        }
    }
    Ok(words)
}

/// Appends what is near to a cell that is no value.
fn push_near(text: &mut String, outputs: &Outputs<'_>, cell: &[u8]) -> Result<(), Memory> {
    if read_word(outputs.names, cell).is_some() {
        return Ok(());
    }
    let given = printable(outputs.alloc, cell)?;
    let words = words_of(outputs.alloc, outputs.program)?;
    push_unknown(
        text,
        outputs.alloc,
        "; no value is written ",
        &given,
        "; words of values are ",
        &words,
    )
}

/// Appends which output is told, and that another is expected.
fn push_difference(
    text: &mut String,
    outputs: &Outputs<'_>,
    name: &[u8],
    told: &[u8],
    cell: &[u8],
) -> Result<(), Memory> {
    let name = printable(outputs.alloc, name)?;
    let expected = printable(outputs.alloc, cell)?;
    text.push_str("output ")?;
    push_name(text, &name)?;
    if told == ABSENT {
        text.push_str(" is absent")?;
    } else {
        let told = printable(outputs.alloc, told)?;
        text.push_str(" is ")?;
        text.push_str(&told)?;
    }
    if cell == ABSENT {
        text.push_str(" where it should be absent")?;
    } else {
        text.push_str(" where ")?;
        text.push_str(&expected)?;
        text.push_str(" is expected")?;
        push_near(text, outputs, cell)?;
    }
    text.push_str("\n")?;
    Ok(())
}

impl Report<'_> {
    /// The name of the node.
    pub(crate) fn node_name(&self) -> &str {
        match self.outputs.program.nodes.get(self.node) {
            Some(node) => node.name.as_str(),
            None => "",
        }
    }

    /// The words of the outputs in the reply to a row: none, where it is refused.
    fn told(&self, row: usize) -> Result<Vec<String>, Memory> {
        let alloc = self.outputs.alloc;
        let Some(reply) = self.tested.replies.get(row) else {
            return Ok(Vec::new(alloc));
        };
        match self.outputs.told(reply)? {
            Some(told) => Ok(told),
            None => Ok(Vec::new(alloc)),
        }
    }

    /// Appends where a row stands: the file and the line.
    fn push_place(&self, text: &mut String, row: usize) -> Result<(), Memory> {
        let line = line_of(self.rows.get(row));
        text.push_str(self.name)?;
        write!(text, ":{line}: ")?;
        Ok(())
    }

    /// Appends that a cell of a row isn't met.
    fn push_unmet(&self, text: &mut String, row: usize, at: usize) -> Result<(), Memory> {
        let alloc = self.outputs.alloc;
        let names = cells_of(alloc, self.head)?;
        let cells = row_at(alloc, self.rows, row)?;
        let words = self.told(row)?;
        let told = bytes_of(alloc, &words)?;
        let word = match self.tested.places.get(at) {
            Some(Some(place)) => cell_at(&told, *place),
            _ => b"",
        };
        self.push_place(text, row)?;
        push_difference(
            text,
            &self.outputs,
            cell_at(&names, at),
            word,
            cell_at(&cells, at),
        )
    }

    /// Appends why the row at a place is refused.
    pub(crate) fn push_refused(&self, text: &mut String, row: usize) -> Result<(), Memory> {
        let outputs = &self.outputs;
        let (Some(step), Some(Reply::Refused(why))) = (
            self.tested.steps.get(row),
            self.tested.replies.get(row),
        ) else {
            return Ok(());
        };
        self.push_place(text, row)?;
        text.push_str("refused ")?;
        text.push_str(why_word(*why))?;
        text.push_str(": ")?;
        push_refusal(
            text,
            outputs.alloc,
            outputs.program,
            outputs.names,
            self.node,
            step,
            *why,
        )?;
        text.push_str("\n")?;
        Ok(())
    }

    /// A cell under a name of the head: what is told there, and in brackets what is expected where that is another; or an input.
    fn head_cell(
        &self,
        place: Option<usize>,
        told: &[&[u8]],
        cell: &[u8],
    ) -> Result<String, Memory> {
        let alloc = self.outputs.alloc;
        let Some(column) = place else {
            return shown(alloc, cell);
        };
        let mut text = shown(alloc, cell_at(told, column))?;
        if !is_met(place, told, cell) {
            let expected = printable(alloc, cell)?;
            text.push_str(" [")?;
            text.push_str(&expected)?;
            text.push_str("]")?;
        }
        Ok(text)
    }

    /// The line of a row: its number, its cells, and the outputs that the head doesn't name.
    fn row_line(&self, row: usize, others: &[usize]) -> Result<Vec<String>, Memory> {
        let alloc = self.outputs.alloc;
        let cells = row_at(alloc, self.rows, row)?;
        let words = self.told(row)?;
        let told = bytes_of(alloc, &words)?;
        let number = line_of(self.rows.get(row));
        let mut line = Vec::new(alloc);
        line.push(format!(in alloc; "{number:>4}")?)?;
        for (at, place) in self.tested.places.iter().enumerate() {
            line.push(self.head_cell(*place, &told, cell_at(&cells, at))?)?;
        }
        for column in others {
            line.push(shown(alloc, cell_at(&told, *column))?)?;
        }
        Ok(line)
    }

    /// The names above the lines of rows.
    fn head_line(&self, columns: &[String], others: &[usize]) -> Result<Vec<String>, Memory> {
        let alloc = self.outputs.alloc;
        let names = cells_of(alloc, self.head)?;
        let mut line = Vec::new(alloc);
        line.push(String::from_str(alloc, "line")?)?;
        for name in &names {
            line.push(printable(alloc, *name)?)?;
        }
        for column in others {
            if let Some(name) = columns.get(*column) {
                line.push(String::from_str(alloc, name.as_str())?)?;
            }
        }
        Ok(line)
    }

    /// The places of the outputs' columns that the head doesn't name.
    fn others(&self, columns: &[String]) -> Result<Vec<usize>, Memory> {
        let mut others = Vec::new(self.outputs.alloc);
        for (place, _column) in columns.iter().enumerate() {
            if !self.tested.places.contains(&Some(place)) {
                others.push(place)?;
            }
        }
        Ok(others)
    }

    /// Appends the row at a place and some before it, with their outputs.
    fn push_rows(&self, text: &mut String, row: usize) -> Result<(), Memory> {
        let alloc = self.outputs.alloc;
        let columns = all_columns(alloc, self.outputs.program, self.outputs.variables)?;
        let others = self.others(&columns)?;
        let mut lines = Vec::new(alloc);
        lines.push(self.head_line(&columns, &others)?)?;
        for shown_row in row.saturating_sub(ROWS_BEFORE)..row {
            lines.push(self.row_line(shown_row, &others)?)?;
        }
        lines.push(self.row_line(row, &others)?)?;
        push_grid(text, alloc, &lines)
    }

    /// What is said of the table.
    pub(crate) fn text(&self) -> Result<String, Memory> {
        let mut text = String::new(self.outputs.alloc);
        match self.tested.finding {
            Finding::Passed => {
                let count = self.rows.len();
                let s = if count == 1 { "" } else { "s" };
                text.push_str(self.name)?;
                write!(text, ": passed, {count} row{s}\n")?;
            }
            Finding::Refused(row) => {
                self.push_refused(&mut text, row)?;
                self.push_rows(&mut text, row)?;
            }
            Finding::Differs(row, at) => {
                self.push_unmet(&mut text, row, at)?;
                self.push_rows(&mut text, row)?;
            }
        }
        Ok(text)
    }
}
