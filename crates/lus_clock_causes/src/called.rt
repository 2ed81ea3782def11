//! The clocks of a call: of its arguments and of its results.

use crate::clock::{Clock, Clocks, Tick, label_of, variable_of};
use crate::placing::bare;
use lus_syntax::{Expr, Group, Name, Node, Part};

/// A call of a node, its arguments, and the variables on the left that its results define: none in an expression.
#[derive(Clone, Copy)]
pub struct Called<'t> {
    pub node: &'t Node,
    pub arguments: &'t [Part],
    pub left: &'t [Name],
}

/// An input or an output: its name, and its group, which has its clock.
#[derive(Clone, Copy)]
pub struct Formal<'t> {
    pub name: &'t Name,
    pub group: &'t Group,
}

/// The place of a variable of this name among those of groups.
fn place_in(groups: &[Group], text: &str) -> Option<usize> {
    let mut before = 0usize;
    for group in groups {
        for (place, name) in group.names.iter().enumerate() {
            if name.text.as_str() == text {
                return Some(before.saturating_add(place));
            }
        }
        before = before.saturating_add(group.names.len());
    }
    None
}

/// The variable of a number among those of groups.
pub fn formal_at(groups: &[Group], number: usize) -> Option<Formal<'_>> {
    let mut left = number;
    for group in groups {
        if let Some(name) = group.names.get(left) {
            return Some(Formal { name, group });
        }
        left = left.saturating_sub(group.names.len());
    }
    None
}

impl<'t> Called<'t> {
    /// The input or the output of a name.
    fn formal(self, text: &str) -> Option<Formal<'t>> {
        match place_in(&self.node.inputs, text) {
            Some(place) => formal_at(&self.node.inputs, place),
            None => formal_at(&self.node.outputs, place_in(&self.node.outputs, text)?),
        }
    }

    /// The variable that stands for an input or an output: an argument that is a name, or one on the left.
    fn variable_for(self, text: &str) -> Option<&'t Name> {
        match place_in(&self.node.inputs, text) {
            Some(place) => match bare(&self.arguments.get(place)?.value) {
                Expr::Name(name) => Some(name),
                _ => None,
            },
            None => self.left.get(place_in(&self.node.outputs, text)?),
        }
    }

    /// The clock of what stands for an input or an output, where the call runs on a base; nothing where no variable stands for the one that
    /// its clock tests.
    pub fn clock_of(self, formal: Formal<'t>, base: Clock<'t>) -> Option<Clock<'t>> {
        let Some(test) = &formal.group.test else {
            return Some(base);
        };
        let variable = self.variable_for(variable_of(test).text.as_str())?;
        let label = label_of(test);
        Some(Clock {
            newest: Some(Tick { variable, label }),
        })
    }

    /// The clock that the call runs on at a place of this clock: that of the variable that the outermost test of its first result is of.
    pub fn base(self, clocks: Clocks<'t>, wanted: Clock<'t>) -> Clock<'t> {
        let Some(first) = formal_at(&self.node.outputs, 0) else {
            return wanted;
        };
        let mut base = Some(wanted);
        let mut formal = first;
        for _turn in 0..self
            .node
            .inputs
            .len()
            .saturating_add(self.node.outputs.len())
        {
            let Some(test) = &formal.group.test else {
                break;
            };
            let text = variable_of(test).text.as_str();
            base = match self.variable_for(text) {
                Some(variable) => clocks.clock(variable.text.as_str()),
                None => None,
            };
            match self.formal(text) {
                Some(tested) => formal = tested,
                None => break,
            }
        }
        base.unwrap_or(wanted)
    }
}

impl<'t> Clocks<'t> {
    /// The node of a name.
    pub fn node_named(self, name: &Name) -> Option<&'t Node> {
        self.tree
            .nodes
            .iter()
            .find(|node| node.name.text.as_str() == name.text.as_str())
    }

    /// A call of a node that is declared.
    pub fn called(
        self,
        name: &Name,
        arguments: &'t [Part],
        left: &'t [Name],
    ) -> Option<Called<'t>> {
        Some(Called {
            node: self.node_named(name)?,
            arguments,
            left,
        })
    }
}
