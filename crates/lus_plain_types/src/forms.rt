//! Types by the forms of expressions, and by what declares their names.

use lus_faults::{Plain, declared_type, resolved, variable_named};
use lus_syntax::{
    Definition, Expr, Fields, Infix, Literal, Name, Node, Prefix, Tree, TypeDeclaration, TypeName,
};
use lus_values::{Op, Shape};

/// The type that a type's name stands for.
fn of_type_name<'t>(tree: &'t Tree, type_name: &'t TypeName) -> Option<Plain<'t>> {
    resolved(tree, type_name, tree.types.len())
}

/// Whether a name is among some.
fn has(names: &[Name], text: &str) -> bool {
    names.iter().any(|name| name.text.as_str() == text)
}

/// Whether a declaration is that of an enumeration with a constructor.
fn constructs(declaration: &TypeDeclaration, text: &str) -> bool {
    match &declaration.definition {
        Definition::Enumeration(names) => has(names, text),
        _ => false,
    }
}

/// The enumeration that has a constructor.
pub fn enumeration_of<'t>(tree: &'t Tree, text: &str) -> Option<Plain<'t>> {
    for (place, declaration) in tree.types.iter().enumerate() {
        if constructs(declaration, text) {
            return Some(Plain::Declared(place, declaration));
        }
    }
    None
}

/// The type of a constant's value.
fn of_literal<'t>(tree: &'t Tree, value: &Literal) -> Option<Plain<'t>> {
    match value {
        Literal::Number(_, _) | Literal::Negative(_, _, _) => Some(Plain::Int),
        Literal::Truth(_, _) => Some(Plain::Bool),
        Literal::Constructor(name) => enumeration_of(tree, name.text.as_str()),
    }
}

/// The type of what a name stands for: a variable, a constant or a constructor.
fn of_name<'t>(tree: &'t Tree, node: &'t Node, text: &str) -> Option<Plain<'t>> {
    if let Some(variable) = variable_named(node, text) {
        return of_type_name(tree, &variable.group.type_name);
    }
    for constant in &tree.constants {
        if constant.name.text.as_str() == text {
            return of_literal(tree, &constant.value);
        }
    }
    enumeration_of(tree, text)
}

/// The type of the output of a number, from 0, of the node of a name.
pub fn output_type<'t>(tree: &'t Tree, text: &str, number: usize) -> Option<Plain<'t>> {
    let node = tree
        .nodes
        .iter()
        .find(|node| node.name.text.as_str() == text)?;
    let mut left = number;
    for group in &node.outputs {
        if left < group.names.len() {
            return of_type_name(tree, &group.type_name);
        }
        left = left.saturating_sub(group.names.len());
    }
    None
}

/// The type of a declared name.
fn of_declared<'t>(tree: &'t Tree, text: &str) -> Option<Plain<'t>> {
    let (place, declaration) = declared_type(tree, text)?;
    match &declaration.definition {
        Definition::Alias(next) => of_type_name(tree, next),
        _ => Some(Plain::Declared(place, declaration)),
    }
}

/// The type of a field among some.
fn of_field_in<'t>(tree: &'t Tree, groups: &'t [Fields], text: &str) -> Option<Plain<'t>> {
    for group in groups {
        if has(&group.names, text) {
            return of_type_name(tree, &group.type_name);
        }
    }
    None
}

/// The type of a field of a value of a type.
fn of_field<'t>(tree: &'t Tree, of: Option<Plain<'t>>, text: &str) -> Option<Plain<'t>> {
    match of {
        Some(Plain::Declared(_, declaration)) => match &declaration.definition {
            Definition::Structure(groups) => of_field_in(tree, groups, text),
            _ => None,
        },
        _ => None,
    }
}

/// The type of what an operator gives.
fn of_operator<'t>(op: Op) -> Plain<'t> {
    match op.shape() {
        Shape::Int | Shape::Ints => Plain::Int,
        _ => Plain::Bool,
    }
}

/// The type of an expression in a node, where its form tells it, or what declares the names in it.
#[cycle(forms)]
pub fn plain_type<'t>(tree: &'t Tree, node: &'t Node, expr: &Expr) -> Option<Plain<'t>> {
    match expr {
        Expr::Number(_, _) | Expr::Unary(Prefix::Negate, _, _) => Some(Plain::Int),
        Expr::Truth(_, _) | Expr::Variadic(_, _, _) | Expr::Unary(Prefix::Not, _, _) => {
            Some(Plain::Bool)
        }
        Expr::Name(name) => of_name(tree, node, name.text.as_str()),
        Expr::Call(name, _) => output_type(tree, name.text.as_str(), 0),
        Expr::Structure(name, _) => of_declared(tree, name.text.as_str()),
        Expr::Field(operand, name) => {
            of_field(tree, plain_type(tree, node, operand), name.text.as_str())
        }
        Expr::Binary(Infix::Compute(op), _, _) => Some(of_operator(*op)),
        Expr::Parentheses(_, operand)
        | Expr::When(operand, _)
        | Expr::Unary(Prefix::Pre, _, operand)
        | Expr::Binary(Infix::Fby | Infix::Arrow, operand, _)
        | Expr::If(_, _, operand, _) => plain_type(tree, node, operand),
        Expr::Merge(_, _, parts) => match parts.first() {
            Some(part) => plain_type(tree, node, &part.value),
            None => None,
        },
    }
}
