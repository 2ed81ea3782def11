//! Types, through their aliases.

use lus_syntax::{Definition, Tree, TypeDeclaration, TypeName};

/// A type that is no alias. A declared one is an enumeration or a structure, with its place among the types.
#[derive(Clone, Copy)]
pub enum Plain<'t> {
    Bool,
    Int,
    Declared(usize, &'t TypeDeclaration),
}

/// The declaration of a type's name, and its place among the types.
pub fn declared_type<'t>(tree: &'t Tree, text: &str) -> Option<(usize, &'t TypeDeclaration)> {
    for (place, declaration) in tree.types.iter().enumerate() {
        if declaration.name.text.as_str() == text {
            return Some((place, declaration));
        }
    }
    None
}

/// The type that a type's name stands for, if it is found through no more than so many aliases.
pub fn resolved<'t>(
    tree: &'t Tree,
    type_name: &'t TypeName,
    most_aliases: usize,
) -> Option<Plain<'t>> {
    let mut current = type_name;
    for _alias in 0..=most_aliases {
        let name = match current {
            TypeName::Bool(_) => return Some(Plain::Bool),
            TypeName::Int(_) => return Some(Plain::Int),
            TypeName::Declared(name) => name.text.as_str(),
        };
        let Some((place, declaration)) = declared_type(tree, name) else {
            return None;
        };
        match &declaration.definition {
            Definition::Alias(next) => current = next,
            _ => return Some(Plain::Declared(place, declaration)),
        }
    }
    None
}

/// A value of a type: `false`, `0` or a constructor; none of a structure.
pub fn value_of(of: Plain<'_>) -> Option<&str> {
    match of {
        Plain::Bool => Some("false"),
        Plain::Int => Some("0"),
        Plain::Declared(_, declaration) => match &declaration.definition {
            Definition::Enumeration(names) => Some(names.first()?.text.as_str()),
            _ => None,
        },
    }
}
