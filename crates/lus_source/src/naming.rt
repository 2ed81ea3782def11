//! What has names of its own, and these names in tables.

ghost use Rattle.std.specs.Prelude.{◌≡◌, ◌++◌, [], ◌∷◌, List, flat_map, map, is_none, string_bytes, OnOk};
ghost use Rattle.std.specs.List.{list_all};
ghost use Rattle.lus_syntax.specs.Lexemes.{Text};
ghost use Rattle.lus_syntax.specs.View.{definition_seen, names_seen};
ghost use Rattle.lus_source.specs.Named.{all_new, constructor_names, is_in};
ghost use Rattle.lus_source.specs.ScopeView.{Tested};
ghost use Rattle.lus_source.specs.Tables.{text_of};
ghost use Rattle.lus_source.specs.NameView.{differs, texts};

use crate::fault::Fault;
use crate::names::{declare, has};
use indexmap::IndexSet;
use lus_syntax::{
    Constant, Definition, Equation, Fields, Group, Name, Node, Place, TypeDeclaration,
};
use std::alloc::Global;
use std::slice;

/// A thing's own names: what it declares, or the variables that it defines.
pub struct Own;

/// The names of a type's constructors.
pub struct Constructors;

/// What has names of this sort.
pub trait Naming<Sort> {
    ghost named: { Self → List Text };

    fn names(&self) -> &[Name]
        ensures { map text_of (names_seen result.now) ≡ named self.now };
}

impl Naming<Own> for TypeDeclaration {
    ghost named = { λ d. string_bytes d.name.text ∷ [] };

    fn names(&self) -> &[Name] {
        slice::from_ref(&self.name)
    }
}

impl Naming<Own> for Constant {
    ghost named = { λ c. string_bytes c.name.text ∷ [] };

    fn names(&self) -> &[Name] {
        slice::from_ref(&self.name)
    }
}

impl Naming<Own> for Node {
    ghost named = { λ f. string_bytes f.name.text ∷ [] };

    fn names(&self) -> &[Name] {
        slice::from_ref(&self.name)
    }
}

impl Naming<Own> for Fields {
    ghost named = { λ g. map text_of (names_seen g.names.items) };

    fn names(&self) -> &[Name] {
        &self.names
    }
}

impl Naming<Own> for Group {
    ghost named = { λ g. map text_of (names_seen g.names.items) };

    fn names(&self) -> &[Name] {
        &self.names
    }
}

impl Naming<Own> for Equation {
    ghost named = { λ q. map text_of (names_seen q.left.items) };

    fn names(&self) -> &[Name] {
        &self.left
    }
}

impl Naming<Constructors> for TypeDeclaration {
    ghost named = { λ d. constructor_names (definition_seen d.definition) };

    fn names(&self) -> &[Name] {
        match &self.definition {
            Definition::Alias(_) => &[],
            Definition::Enumeration(constructors) => constructors.as_slice(),
            Definition::Structure(_) => &[],
        }
    }
}

/// Adds the names of these to a table; a fault at one that stands there already.
pub fn declare_all<Sort, T: Naming<Sort>>(
    table: &mut IndexSet<String>,
    things: &[T],
) -> Result<(), Fault>
    ensures kept { OnOk result (texts table.new.keys ≡ texts table.old.keys ++ flat_map T.named things.now) }
    ensures new { Tested result (all_new (texts table.old.keys) (flat_map T.named things.now)) }
{
    for thing in things {
        declare(table, thing.names())?;
    }
    Ok(())
}

/// Checks that no name of these stands twice.
pub fn check_distinct<Sort, T: Naming<Sort>>(alloc: Global, things: &[T]) -> Result<(), Fault>
    ensures { Tested result (all_new [] (flat_map T.named things.now)) }
{
    declare_all(&mut IndexSet::new(alloc), things)
}

/// The first name of these that a table has, or that it doesn't have where `among` is false.
pub fn first<'a, Sort, T: Naming<Sort>>(
    table: &IndexSet<String>,
    things: &'a [T],
    among: bool,
) -> Option<&'a Name>
    ensures { is_none result ≡ list_all (λ n. differs among (is_in (texts table.now.keys) n)) (flat_map T.named things.now) }
{
    for thing in things {
        if let Some(name) = first_name(table, thing.names(), among) {
            return Some(name);
        }
    }
    None
}

fn first_name<'a>(table: &IndexSet<String>, names: &'a [Name], among: bool) -> Option<&'a Name>
    ensures { let all = map text_of (names_seen names.now) in
        is_none result ≡ list_all (λ n. differs among (is_in (texts table.now.keys) n)) all }
{
    for name in names {
        if has(table, &name.text) == among {
            return Some(name);
        }
    }
    None
}

/// Where the first name of these stands that a table doesn't have.
pub fn absent<Sort, T: Naming<Sort>>(table: &IndexSet<String>, things: &[T]) -> Option<Place>
    ensures { is_none result ≡ list_all (is_in (texts table.now.keys)) (flat_map T.named things.now) }
{
    match first(table, things, false) {
        Some(name) => Some(name.span.start),
        None => None,
    }
}
