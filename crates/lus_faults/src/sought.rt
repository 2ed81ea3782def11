//! The place of a refusal, and the variables of a node.

use lus_syntax::{Group, Name, Node, Place, Refusal, Tree};

/// A place that is looked for, by its line and its column.
#[derive(Clone, Copy)]
pub struct Sought {
    pub line: usize,
    pub column: usize,
}

/// What a variable of a node is.
#[derive(Clone, Copy, PartialEq, Eq)]
pub enum Role {
    Input,
    Output,
    Local,
}

/// A variable where a node declares it, with the group that it stands in.
#[derive(Clone, Copy)]
pub struct Variable<'t> {
    pub name: &'t Name,
    pub group: &'t Group,
    pub role: Role,
}

impl Sought {
    /// The place of a refusal.
    pub fn of(refusal: &Refusal) -> Sought {
        Sought {
            line: refusal.line,
            column: refusal.column,
        }
    }

    /// Whether this is the place that is looked for.
    pub fn is_at(self, place: Place) -> bool {
        place.line == self.line && place.column == self.column
    }

    /// The last node whose name doesn't stand behind the place.
    pub fn node(self, tree: &Tree) -> Option<&Node> {
        let mut found = None;
        for node in &tree.nodes {
            let start = node.name.span.start;
            if start.line < self.line || (start.line == self.line && start.column <= self.column) {
                found = Some(node);
            }
        }
        found
    }

    /// The variable among groups that is declared at the place.
    fn variable_in(self, role: Role, groups: &[Group]) -> Option<Variable<'_>> {
        for group in groups {
            for name in &group.names {
                if self.is_at(name.span.start) {
                    return Some(Variable { name, group, role });
                }
            }
        }
        None
    }

    /// The variable of a node that is declared at the place.
    pub fn variable(self, node: &Node) -> Option<Variable<'_>> {
        self.variable_in(Role::Input, &node.inputs)
            .or(self.variable_in(Role::Output, &node.outputs))
            .or(self.variable_in(Role::Local, &node.locals))
    }
}

/// The variable among groups that has a name.
fn named_in<'t>(role: Role, groups: &'t [Group], text: &str) -> Option<Variable<'t>> {
    for group in groups {
        for name in &group.names {
            if name.text.as_str() == text {
                return Some(Variable { name, group, role });
            }
        }
    }
    None
}

/// The variable of a node that has a name.
pub fn variable_named<'t>(node: &'t Node, text: &str) -> Option<Variable<'t>> {
    named_in(Role::Input, &node.inputs, text)
        .or(named_in(Role::Output, &node.outputs, text))
        .or(named_in(Role::Local, &node.locals, text))
}
