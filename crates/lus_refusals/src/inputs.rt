//! Inputs that aren't present exactly where their clocks are.

use lus_culprits::push_name;
use lus_program::{Kind, Node, Test};
use lus_values::{Memory, Names, Row, Value};

fn name_of(node: &Node, variable: usize) -> &str {
    match node.variables.get(variable) {
        Some(found) => found.name.as_str(),
        None => "?",
    }
}

fn holds(value: &Value, constructor: u32) -> bool {
    match value {
        Value::Bool(truth) => u32::from(*truth) == constructor,
        Value::Enum(_, number) => *number == constructor,
        _ => false,
    }
}

/// Whether the clock of an input is present: each of its tests holds.
fn is_on(node: &Node, inputs: &Row, input: usize) -> bool {
    let mut tested = input;
    for _test in 0..node.variables.len() {
        let Some(declared) = node.variables.get(tested) else {
            return true;
        };
        let Some(test) = declared.test else {
            return true;
        };
        tested = test.variable as usize;
        match inputs.items().get(tested) {
            Some(Some(value)) if holds(value, test.constructor) => {}
            _ => return false,
        }
    }
    true
}

/// The test of a variable's own clock, if it has one.
fn test_of(node: &Node, variable: usize) -> Option<Test> {
    node.variables.get(variable)?.test
}

/// Appends the text of a test on a variable of a name: `c`, `not c` or `A(c)`.
fn push_test(
    text: &mut String,
    names: &Names,
    kind: Kind,
    constructor: u32,
    name: &str,
) -> Result<(), Memory> {
    match kind {
        Kind::Enum(enumeration) => {
            let constructor = names.name(enumeration, constructor).unwrap_or("?");
            write!(text, "{constructor}({name})")?;
        }
        _ => {
            text.push_str(if constructor == 0 { "not " } else { "" })?;
            text.push_str(name)?;
        }
    }
    Ok(())
}

/// Appends a test of a node.
fn push_node_test(text: &mut String, names: &Names, node: &Node, test: Test) -> Result<(), Memory> {
    match node.variables.get(test.variable as usize) {
        Some(tested) => push_test(
            text,
            names,
            tested.kind,
            test.constructor,
            tested.name.as_str(),
        ),
        None => Ok(()),
    }
}

/// Appends when an input is to be there.
fn push_clock(text: &mut String, names: &Names, node: &Node, input: usize) -> Result<(), Memory> {
    let mut variable = input;
    let mut before = "it is there when ";
    for test_number in 0..=node.variables.len() {
        let Some(test) = test_of(node, variable) else {
            if test_number == 0 {
                text.push_str("it is always there")?;
            }
            return Ok(());
        };
        text.push_str(before)?;
        push_node_test(text, names, node, test)?;
        before = " when ";
        variable = test.variable as usize;
    }
    Ok(())
}

/// Appends which input isn't present exactly where its clock is.
pub(crate) fn push_presence(
    text: &mut String,
    names: &Names,
    node: &Node,
    inputs: &Row,
) -> Result<(), Memory> {
    for (input, item) in inputs.items().iter().enumerate() {
        let wanted = is_on(node, inputs, input);
        if item.is_some() != wanted {
            text.push_str("input ")?;
            push_name(text, name_of(node, input))?;
            text.push_str(if wanted {
                " is absent, and should be there: "
            } else {
                " is given, and should be absent: "
            })?;
            return push_clock(text, names, node, input);
        }
    }
    Ok(())
}
