//! What is said of the branches that the rows of tables took.

use lus_coverage::{Branch, Choice, Coverage};
use lus_diagnostics::push_string;
use lus_program::{Kind, Node, Program};
use lus_values::{Memory, Names};
use std::alloc::Global;

/// A program, with the name of its file.
#[derive(Clone, Copy)]
pub(crate) struct Sources<'p> {
    pub alloc: Global,
    pub file: &'p str,
    pub program: &'p Program,
    pub names: &'p Names,
}

/// The word of the constructor of a variable's type, or of a truth value.
fn word_of<'p>(names: &'p Names, kind: Kind, constructor: u32) -> &'p str {
    match kind {
        Kind::Enum(enumeration) => names.name(enumeration, constructor).unwrap_or("?"),
        _ if constructor == 0 => "false",
        _ => "true",
    }
}

impl<'p> Sources<'p> {
    fn node(&self, branch: &Branch) -> Option<&'p Node> {
        self.program.nodes.get(branch.node as usize)
    }

    /// The form of a branch's expression, the variable by which a merge goes, and the word of the branch.
    fn words(&self, branch: &Branch) -> (&'static str, &'p str, &'p str) {
        match branch.choice {
            Choice::Then => ("if", "", "then"),
            Choice::Else => ("if", "", "else"),
            Choice::Merge(variable, constructor) => {
                let Some(node) = self.node(branch) else {
                    return ("merge", "", "");
                };
                match node.variables.get(variable as usize) {
                    Some(by) => {
                        let word = word_of(self.names, by.kind, constructor);
                        ("merge", by.name.as_str(), word)
                    }
                    None => ("merge", "", ""),
                }
            }
        }
    }

    fn node_name(&self, branch: &Branch) -> &'p str {
        match self.node(branch) {
            Some(node) => node.name.as_str(),
            None => "",
        }
    }

    /// Appends the line of a branch: where it stands, what it is, and how often it was taken.
    fn push_line(&self, text: &mut String, branch: &Branch) -> Result<(), Memory> {
        let (form, by, word) = self.words(branch);
        let (line, column) = (branch.place.line, branch.place.column);
        text.push_str(self.file)?;
        write!(text, ":{line}:{column}: `{word}` of `{form}")?;
        if !by.is_empty() {
            text.push_str(" ")?;
            text.push_str(by)?;
        }
        text.push_str("` in ")?;
        text.push_str(self.node_name(branch))?;
        match branch.taken {
            0 => text.push_str(": never taken\n")?,
            1 => text.push_str(": taken once\n")?,
            taken => write!(text, ": taken {taken} times\n")?,
        }
        Ok(())
    }

    /// Appends a branch as an object of JSON.
    fn push_object(&self, text: &mut String, branch: &Branch) -> Result<(), Memory> {
        let (form, by, word) = self.words(branch);
        let (line, column) = (branch.place.line, branch.place.column);
        text.push_str("{\"file\":")?;
        push_string(self.alloc, text, self.file)?;
        write!(text, ",\"line\":{line},\"column\":{column},\"node\":")?;
        push_string(self.alloc, text, self.node_name(branch))?;
        text.push_str(",\"form\":")?;
        push_string(self.alloc, text, form)?;
        if !by.is_empty() {
            text.push_str(",\"by\":")?;
            push_string(self.alloc, text, by)?;
        }
        text.push_str(",\"branch\":")?;
        push_string(self.alloc, text, word)?;
        let taken = branch.taken;
        write!(text, ",\"taken\":{taken}}}\n")?;
        Ok(())
    }

    /// What is said of the branches of a program: a line or an object for each, and behind lines how many were taken.
    pub(crate) fn text(&self, coverage: &Coverage<'_>, is_json: bool) -> Result<String, Memory> {
        let branches = coverage.branches()?;
        let mut text = String::new(self.alloc);
        let mut taken = 0u64;
        for branch in &branches {
            if is_json {
                self.push_object(&mut text, branch)?;
            } else {
                self.push_line(&mut text, branch)?;
            }
            if branch.taken > 0 {
                taken = taken.saturating_add(1);
            }
        }
        if !is_json {
            let count = branches.len();
            text.push_str(self.file)?;
            write!(text, ": {taken} of {count} branches taken\n")?;
        }
        Ok(text)
    }
}
