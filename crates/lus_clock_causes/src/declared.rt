//! Clocks that are declared of variables.

use crate::clock::variable_of;
use lus_faults::{Finding, Role, Sought};
use lus_syntax::{Name, Node};
use std::alloc::{AllocError, Global};

/// What is said of a declared clock at a place: of a variable whose clock tests one that it may not.
pub fn wrong_clock(
    alloc: Global,
    sought: Sought,
    node: &Node,
) -> Result<Option<Finding>, AllocError> {
    let Some(variable) = sought.variable(node) else {
        return Ok(None);
    };
    let Some(test) = &variable.group.test else {
        return Ok(None);
    };
    let (what, note) = match variable.role {
        Role::Input => (
            "input",
            "The clock of an input is another input, and no variable is its own clock, directly or through others.",
        ),
        Role::Output => (
            "output",
            "The clock of an output is an input or another output, and no variable is its own clock, directly or through others.",
        ),
        Role::Local => (
            "local",
            "No variable is its own clock, directly or through others.",
        ),
    };
    let text = variable.name.text.as_str();
    let tested = variable_of(test);
    let other = tested.text.as_str();
    let sentence = format!(in alloc; "the {what} `{text}` cannot have `{other}` as its clock")?;
    let mut finding = Finding::new(alloc, sentence, variable.name.span.length);
    complete(alloc, &mut finding, tested, note)?;
    Ok(Some(finding))
}

/// Adds the variable that is tested, and a note.
fn complete(
    alloc: Global,
    finding: &mut Finding,
    tested: &Name,
    note: &str,
) -> Result<(), AllocError> {
    let text = tested.text.as_str();
    finding.relate(
        tested.span,
        format!(in alloc; "`{text}` is its clock here")?,
    )?;
    finding.note = Some(String::from_str(alloc, note)?);
    Ok(())
}
