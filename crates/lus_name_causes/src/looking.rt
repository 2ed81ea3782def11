//! Where names are used.

use crate::unknown::{Purpose, Use};
use lus_faults::{Sought, expressions_in};
use lus_syntax::{
    Definition, Expr, Group, Label, Lead, Literal, Name, Node, Part, Test, Tree, TypeName,
};
use std::alloc::{AllocError, Global};

/// The use of a name that is looked for by its place, and was found.
#[derive(Clone, Copy)]
pub struct Looking<'t> {
    sought: Sought,
    found: Option<Use<'t>>,
}

impl<'t> Looking<'t> {
    /// Looks at a name.
    fn name(&mut self, name: &'t Name, purpose: Purpose) {
        self.name_before(name, purpose, None);
    }

    /// Looks at a name, behind which a field may be taken. Nothing is changed that was found before.
    fn name_before(&mut self, name: &'t Name, purpose: Purpose, field: Option<&'t Name>) {
        if self.found.is_none() && self.sought.is_at(name.span.start) {
            self.found = Some(Use {
                name,
                purpose,
                field,
            });
        }
    }

    fn label(&mut self, label: &'t Label) {
        if let Label::Constructor(name) = label {
            self.name(name, Purpose::Constructor);
        }
    }

    fn test(&mut self, test: &'t Test) {
        match test {
            Test::Holds(name) | Test::Fails(_, name) => self.name(name, Purpose::Clock),
            Test::Is(label, name) => {
                self.label(label);
                self.name(name, Purpose::Variable);
            }
        }
    }

    fn type_name(&mut self, type_name: &'t TypeName) {
        if let TypeName::Declared(name) = type_name {
            self.name(name, Purpose::Type);
        }
    }

    fn groups(&mut self, groups: &'t [Group]) {
        for group in groups {
            self.type_name(&group.type_name);
            if let Some(test) = &group.test {
                self.test(test);
            }
        }
    }

    fn branches(&mut self, parts: &'t [Part]) {
        for part in parts {
            if let Lead::Branch(_, label) = &part.lead {
                self.label(label);
            }
        }
    }

    /// Looks at the names of an expression, operands aside.
    fn expression(&mut self, expr: &'t Expr) {
        match expr {
            Expr::Name(name) => self.name(name, Purpose::Value),
            Expr::Call(name, _) => self.name(name, Purpose::Node),
            Expr::Structure(name, _) => self.name(name, Purpose::Type),
            Expr::Merge(_, name, parts) => {
                self.name(name, Purpose::Variable);
                self.branches(parts);
            }
            Expr::When(_, test) => self.test(test),
            Expr::Field(operand, field) => {
                if let Expr::Name(name) = &**operand {
                    self.name_before(name, Purpose::Value, Some(field));
                }
            }
            _ => {}
        }
    }

    fn definition(&mut self, definition: &'t Definition) {
        match definition {
            Definition::Alias(name) => self.type_name(name),
            Definition::Enumeration(_) => {}
            Definition::Structure(groups) => {
                for group in groups {
                    self.type_name(&group.type_name);
                }
            }
        }
    }
}

/// The name that a declaration of a type or a constant uses at a place.
pub fn in_declarations(sought: Sought, tree: &Tree) -> Option<Use<'_>> {
    let mut looking = Looking {
        sought,
        found: None,
    };
    for declaration in &tree.types {
        looking.definition(&declaration.definition);
    }
    for constant in &tree.constants {
        if let Some(name) = &constant.type_name {
            looking.type_name(name);
        }
        if let Literal::Constructor(name) = &constant.value {
            looking.name(name, Purpose::Constructor);
        }
    }
    looking.found
}

/// The name that a node uses at a place.
pub fn in_node(alloc: Global, sought: Sought, node: &Node) -> Result<Option<Use<'_>>, AllocError> {
    let mut looking = Looking {
        sought,
        found: None,
    };
    looking.groups(&node.inputs);
    looking.groups(&node.outputs);
    looking.groups(&node.locals);
    for equation in &node.equations {
        for expr in &expressions_in(alloc, &equation.right)? {
            looking.expression(expr);
        }
    }
    Ok(looking.found)
}
