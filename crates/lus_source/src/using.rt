//! What uses names, and the first of them that stands for nothing.

ghost use Rattle.std.specs.Prelude.{◌≡◌, Bool, is_none};
ghost use Rattle.std.specs.List.{list_all};
ghost use Rattle.lus_syntax.specs.View.{constant_seen, expression_seen, group_seen, literal_seen, type_name_seen};
ghost use Rattle.lus_source.specs.Named.{Known, constant_known, knows, literal_known, type_known};
ghost use Rattle.lus_source.specs.NameView.{known_seen, texts};
ghost use Rattle.lus_source.specs.Parts.{group_known};

use crate::names::{Names, missing, unknown};
use indexmap::IndexSet;
use lus_syntax::{Constant, Equation, Fields, Group, Literal, Place, TypeName};

/// What uses names.
pub trait Using {
    ghost known: { Known → Self → Bool };

    /// The first name that it uses and that stands for nothing.
    fn unknown(&self, names: &Names) -> Option<Place>
        ensures { is_none result ≡ known (known_seen names.now) self.now };
}

impl Using for Fields {
    ghost known = { λ k g. type_known k.types (type_name_seen g.type_name) };

    fn unknown(&self, names: &Names) -> Option<Place> {
        unknown_type(&names.types, &self.type_name)
    }
}

impl Using for Constant {
    ghost known = { λ k c. constant_known k (constant_seen c) };

    #[tactic(auto, using(crate::proofs::AppendedNames::none_or))]
    fn unknown(&self, names: &Names) -> Option<Place> {
        let unknown = match &self.type_name {
            Some(name) => unknown_type(&names.types, name),
            None => None,
        };
        unknown.or(unknown_in_literal(&names.constructors, &self.value))
    }
}

impl Using for Group {
    ghost known = { λ k g. group_known k (group_seen g) };

    #[tactic(auto, using(crate::proofs::AppendedNames::none_or))]
    fn unknown(&self, names: &Names) -> Option<Place> {
        let unknown = match &self.test {
            Some(test) => names.unknown_test(test),
            None => None,
        };
        unknown_type(&names.types, &self.type_name).or(unknown)
    }
}

impl Using for Equation {
    ghost known = { λ k q. knows k (expression_seen q.right) };

    fn unknown(&self, names: &Names) -> Option<Place> {
        unknown(names, &self.right)
    }
}

/// The first name that one of these uses and that stands for nothing.
pub fn first_unknown<T: Using>(names: &Names, things: &[T]) -> Option<Place>
    ensures { is_none result ≡ list_all (T.known (known_seen names.now)) things.now }
{
    for thing in things {
        if let Some(place) = thing.unknown(names) {
            return Some(place);
        }
    }
    None
}

/// The name of a type that is not declared.
pub fn unknown_type(types: &IndexSet<String>, name: &TypeName) -> Option<Place>
    ensures { is_none result ≡ type_known (texts types.now.keys) (type_name_seen name.now) }
{
    match name {
        TypeName::Bool(_) => None,
        TypeName::Int(_) => None,
        TypeName::Declared(declared) => missing(types, declared),
    }
}

fn unknown_in_literal(constructors: &IndexSet<String>, literal: &Literal) -> Option<Place>
    ensures { is_none result ≡ literal_known (texts constructors.now.keys) (literal_seen literal.now) }
{
    match literal {
        Literal::Number(_, _) => None,
        Literal::Negative(_, _, _) => None,
        Literal::Truth(_, _) => None,
        Literal::Constructor(name) => missing(constructors, name),
    }
}
