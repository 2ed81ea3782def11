//! The types of a source: what each type's name means, and what its declaration declares.

ghost use Rattle.std.specs.Prelude.{◌≡◌, ◌++◌, IfOk, OnOk, map, string_bytes};
ghost use Rattle.lus_syntax.specs.View.{definition_seen, fields_seen, names_seen, type_name_seen, type_seen, tree_seen};
ghost use Rattle.lus_program.specs.View.{declared_of, field_of};
ghost use Rattle.lus_source.specs.Tables.{all_declared_by, declared_by, fields_by, fields_of_kind, text_of, AreKinds, definition_at, definition_kind};
ghost use Rattle.lus_source.specs.ByTable.{kind_told};
ghost use Rattle.lus_values.specs.Lists.{item};
ghost use Rattle.lus_program.specs.declared.types.Kind.TheVariants as kind_names;
ghost use Rattle.lus_source.specs.Loopless.{type_names, type_uses};

use crate::loopless::Loopless;
use crate::places::{Places, find};
use lus_graph::{Rule, along};
use lus_program::{Declared, Field, Kind};
use lus_syntax::{Definition, Fields, Name, TypeDeclaration, TypeName};
use lus_values::Memory;
use std::alloc::Global;

/// The type that a name means; bool for an unknown one.
pub fn kind_of_name(types: &Places, kinds: &[Kind], name: &TypeName) -> Kind
    ensures { result ≡ kind_told types.now kinds.now (type_name_seen name.now) }
{
    match name {
        TypeName::Bool(_) => Kind::Bool,
        TypeName::Int(_) => Kind::Int,
        TypeName::Declared(declared) => match find(types, kinds, &declared.text).copied() {
            Some(kind) => kind,
            None => Kind::Bool,
        },
    }
}

/// What each type's declaration declares.
pub fn declared(
    alloc: Global,
    types: &Places,
    kinds: &[Kind],
    declarations: &[TypeDeclaration],
) -> Result<Vec<Declared>, Memory>
    ensures { let declared = all_declared_by (kind_told types.now kinds.now) (map type_seen declarations.now) in
        IfOk result (λ all. map declared_of all.items ≡ declared) }
{
    let mut all = Vec::new(alloc);
    for declaration in declarations {
        all.push(definition(alloc, types, kinds, &declaration.definition)?)?;
    }
    Ok(all)
}

fn definition(
    alloc: Global,
    types: &Places,
    kinds: &[Kind],
    definition: &Definition,
) -> Result<Declared, Memory>
    ensures { IfOk result (λ d. declared_of d ≡ declared_by (kind_told types.now kinds.now) (definition_seen definition.now)) }
{
    match definition {
        Definition::Alias(name) => Ok(Declared::Alias(kind_of_name(types, kinds, name))),
        Definition::Enumeration(constructors) => {
            Ok(Declared::Enumeration(texts(alloc, constructors)?))
        }
        Definition::Structure(groups) => Ok(Declared::Structure(fields(
            alloc, types, kinds, groups,
        )?)),
    }
}

/// Copies of names.
fn texts(alloc: Global, names: &[Name]) -> Result<Vec<String>, Memory>
    ensures { IfOk result (λ copies. map string_bytes copies.items ≡ map text_of (names_seen names.now)) }
{
    let mut copies = Vec::new(alloc);
    for name in names {
        copies.push(name.text.clone()?)?;
    }
    Ok(copies)
}

fn fields(
    alloc: Global,
    types: &Places,
    kinds: &[Kind],
    groups: &[Fields],
) -> Result<Vec<Field>, Memory>
    ensures { IfOk result (λ fields. map field_of fields.items ≡ fields_by (kind_told types.now kinds.now) (map fields_seen groups.now)) }
{
    let mut fields = Vec::new(alloc);
    for group in groups {
        let kind = kind_of_name(types, kinds, &group.type_name);
        push_fields(&mut fields, &group.names, kind)?;
    }
    Ok(fields)
}

/// Appends fields of one type.
fn push_fields(fields: &mut Vec<Field>, names: &[Name], kind: Kind) -> Result<(), Memory>
    ensures { OnOk result (map field_of fields.new.items ≡ map field_of fields.old.items ++ fields_of_kind (names_seen names.now) kind) }
{
    for name in names {
        let copy = name.text.clone()?;
        fields.push(Field { name: copy, kind })?;
    }
    Ok(())
}

/// Each declaration declares a type, by those of the types that it names.
#[derive(Drop)]
struct Kinds<'a> {
    source: &'a Loopless,
}

impl<'a> Rule<Kind> for Kinds<'a> {
    ghost uses = { λ r. type_uses (tree_seen r.source.now) };

    ghost nothing = { λ r. kind_names.Bool };

    ghost step = { λ r at t. definition_kind (type_names (tree_seen r.source.now)) at t (definition_at (tree_seen r.source.now) t) };

    ghost fits = { λ r k. Unit {0} };

    fn find(&self, thing: usize, table: &[Kind]) -> Option<Kind> {
        let types = self.source.type_names();
        let definition = &self.source.tree().types[thing].definition;
        Some(kind_of(types, thing as u32, definition, table))
    }
}

/// The types that the declarations of a source declare, one by one.
pub fn kinds_of_types(alloc: Global, loopless: &Loopless) -> Result<Vec<Kind>, Memory>
    ensures { IfOk result (λ kinds. AreKinds (tree_seen loopless.now) kinds.items) }
{
    let unknown = vec![in alloc; Kind::Bool; loopless.tree().types.len()]?;
    match along(&Kinds { source: loopless }, loopless.types(), unknown) {
        Ok(kinds) => Ok(kinds),
        Err(_) => unreachable!(),
    }
}

/// The type that a type's declaration declares, by those of the types that it names.
#[tactic(auto, using(crate::proofs::TypesMeant::told_is))]
fn kind_of(types: &Places, place: u32, definition: &Definition, kinds: &[Kind]) -> Kind
    ensures { let at = item kind_names.Bool kinds.now in
        result ≡ definition_kind types.now at place (definition_seen definition.now) }
{
    match definition {
        Definition::Alias(name) => kind_of_name(types, kinds, name),
        Definition::Enumeration(_) => Kind::Enum(place),
        Definition::Structure(_) => Kind::Struct(place),
    }
}
