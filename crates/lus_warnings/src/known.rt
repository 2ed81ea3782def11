//! Expressions whose value is known.

use crate::same::bare;
use indexmap::{IndexMap, IndexSet};
use lus_syntax::{
    Constant, Definition, Expr, Group, Literal, Name, Node, Prefix, Tree, TypeDeclaration,
};
use std::alloc::{AllocError, Global};
use std::fmt;

/// A value that is known without running.
#[derive(Clone, Copy)]
pub(crate) enum Known<'t> {
    Number(i64),
    Truth(bool),
    Constructor(&'t str),
}

impl fmt::Display for Known<'_> {
    fn fmt<W: fmt::Write>(&self, f: &mut fmt::Formatter<W>) -> fmt::Result {
        match self {
            Known::Number(number) => write!(f, "{number}"),
            Known::Truth(true) => f.write_str("true"),
            Known::Truth(false) => f.write_str("false"),
            Known::Constructor(name) => f.write_str(name),
        }
    }
}

/// What a minus before an expression makes of it, where that is a literal.
fn negative<'t>(operand: &Expr) -> Option<Known<'t>> {
    match bare(operand) {
        Expr::Number(number, _) => Some(Known::Number(number.saturating_neg())),
        _ => None,
    }
}

/// The constants and the constructors of a source, by their names, with their values.
pub(crate) type Values<'t> = IndexMap<&'t str, Known<'t>>;

/// What a literal is worth.
fn literal_value(literal: &Literal) -> Known<'_> {
    match literal {
        Literal::Number(number, _) => Known::Number(*number),
        Literal::Negative(_, number, _) => Known::Number(number.saturating_neg()),
        Literal::Truth(holds, _) => Known::Truth(*holds),
        Literal::Constructor(name) => Known::Constructor(name.text.as_str()),
    }
}

/// Adds constructors.
fn add_constructors<'t>(values: &mut Values<'t>, names: &'t [Name]) -> Result<(), AllocError> {
    for name in names {
        let text = name.text.as_str();
        let _before = values.insert(text, Known::Constructor(text))?;
    }
    Ok(())
}

/// Adds the constructors of types.
fn add_types<'t>(values: &mut Values<'t>, types: &'t [TypeDeclaration]) -> Result<(), AllocError> {
    for declaration in types {
        if let Definition::Enumeration(names) = &declaration.definition {
            add_constructors(values, names)?;
        }
    }
    Ok(())
}

/// Adds constants.
fn add_constants<'t>(values: &mut Values<'t>, constants: &'t [Constant]) -> Result<(), AllocError> {
    for constant in constants {
        let _before = values.insert(constant.name.text.as_str(), literal_value(&constant.value))?;
    }
    Ok(())
}

/// The constants and the constructors of a source.
pub(crate) fn values_by_name(alloc: Global, tree: &Tree) -> Result<Values<'_>, AllocError> {
    let mut values = IndexMap::new(alloc);
    add_types(&mut values, &tree.types)?;
    add_constants(&mut values, &tree.constants)?;
    Ok(values)
}

/// Adds the names of variables.
fn add_names<'t>(variables: &mut IndexSet<&'t str>, names: &'t [Name]) -> Result<(), AllocError> {
    for name in names {
        let _is_new = variables.insert(name.text.as_str())?;
    }
    Ok(())
}

/// Adds the names of the variables of some groups.
fn add_groups<'t>(
    variables: &mut IndexSet<&'t str>,
    groups: &'t [Group],
) -> Result<(), AllocError> {
    for group in groups {
        add_names(variables, &group.names)?;
    }
    Ok(())
}

/// The names of a node's variables.
fn variables_of(alloc: Global, node: &Node) -> Result<IndexSet<&str>, AllocError> {
    let mut variables = IndexSet::new(alloc);
    add_groups(&mut variables, &node.inputs)?;
    add_groups(&mut variables, &node.outputs)?;
    add_groups(&mut variables, &node.locals)?;
    Ok(variables)
}

/// A node with what its names stand for, where that is a value.
pub(crate) struct Scope<'s, 't> {
    pub node: &'t Node,
    values: &'s Values<'t>,
    variables: IndexSet<&'t str>,
}

impl Drop for Scope<'_, '_> {
    fn drop(self) {
        let Scope {
            node: _,
            values: _,
            variables: _,
        } = self;
    }
}

impl<'s, 't> Scope<'s, 't> {
    /// The names of a node, whose variables hide constants and constructors.
    pub fn of(
        alloc: Global,
        values: &'s Values<'t>,
        node: &'t Node,
    ) -> Result<Scope<'s, 't>, AllocError> {
        Ok(Scope {
            node,
            values,
            variables: variables_of(alloc, node)?,
        })
    }

    /// The value of a name, if it is that of a constant or of a constructor.
    fn named(&self, name: &str) -> Option<Known<'t>> {
        if self.variables.contains(&name) {
            return None;
        }
        self.values.get(&name).copied()
    }

    /// The value of a literal, of a constant or of a constructor.
    pub fn value(&self, expr: &Expr) -> Option<Known<'t>> {
        match bare(expr) {
            Expr::Number(number, _) => Some(Known::Number(*number)),
            Expr::Truth(holds, _) => Some(Known::Truth(*holds)),
            Expr::Name(name) => self.named(name.text.as_str()),
            Expr::Unary(Prefix::Negate, _, operand) => negative(operand),
            _ => None,
        }
    }
}
