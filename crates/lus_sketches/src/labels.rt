//! Labels of variables: their names and clocks.

use lus_program::{Kind, Node, Test, Variable};
use lus_values::Names;
use std::alloc::{AllocError, Global};

/// A variable's name, with the newest test of its clock. Before names of the node's variables stands this.
fn label_with_test(
    alloc: Global,
    names: &Names,
    before: &str,
    variable: &Variable,
    test: Test,
    tested: &Variable,
) -> Result<String, AllocError> {
    let name = variable.name.as_str();
    let on = tested.name.as_str();
    match tested.kind {
        Kind::Enum(enumeration) => {
            let constructor = names.name(enumeration, test.constructor).unwrap_or("?");
            format!(in alloc; "{before}{name} when {constructor}({before}{on})")
        }
        _ if test.constructor == 0 => format!(in alloc; "{before}{name} when not {before}{on}"),
        _ => format!(in alloc; "{before}{name} when {before}{on}"),
    }
}

/// The label of a variable of a node. Before names of the node's variables stands this: the path to the node.
pub(crate) fn label(
    alloc: Global,
    names: &Names,
    node: &Node,
    before: &str,
    variable: &Variable,
) -> Result<String, AllocError> {
    if let Some(test) = variable.test
        && let Some(tested) = node.variables.get(test.variable as usize)
    {
        return label_with_test(alloc, names, before, variable, test, tested);
    }
    format!(in alloc; "{before}{}", variable.name)
}
