//! What the names of a source stand for, and those in a node's text.

ghost use Rattle.std.specs.Prelude.{◌≡◌, ◌≤◌, IsTrue, length, map};
ghost use Rattle.std.specs.List.{list_all};
ghost use Rattle.lus_syntax.specs.Limits.{most_fields};
ghost use Rattle.lus_program.specs.View.{declared_of, field_of};
ghost use Rattle.lus_source.specs.Labels.{field_named, has_few_fields};

use crate::entries::{Constructor, Placed, Signature};
use crate::places::{Places, Spaces, at, find};
use lus_program::{Declared, Field, Kind};
use lus_values::{Memory, Value, copy};
use std::alloc::Global;

/// What the names of a source stand for, each at its name's place: the values of constants, constructors, types, and the heads
/// of nodes. `declared` says what each type's declaration declares, `variables` the types of each node's variables.
pub struct Tables<'a> {
    pub names: &'a Spaces,
    pub constants: Vec<Value>,
    pub constructors: Vec<Constructor>,
    pub types: Vec<Kind>,
    pub declared: Vec<Declared>,
    pub nodes: Vec<Signature>,
    pub variables: Vec<Vec<Kind>>,
    ghost few_fields: { IsTrue (list_all has_few_fields (map declared_of declared.items)) },
}

impl<'a> Tables<'a> {
    ghost use Rattle.lus_source.specs.ScopeView.{tables_seen};

    /// What the declarations of its types declare; the rest is given up.
    pub fn into_declared(self) -> Vec<Declared>
        ensures { map declared_of result.items ≡ (tables_seen self.entry).declared }
    {
        let Tables {
            names: _,
            constants: _,
            constructors: _,
            types: _,
            declared,
            nodes: _,
            variables: _,
        } = self;
        declared
    }
}

// By hand, so that crates above call it: what a derive drops is proved again in each of them.
impl<'a> Drop for Tables<'a> {
    fn drop(self) {
        let Tables {
            names: _,
            constants: _,
            constructors: _,
            types: _,
            declared: _,
            nodes: _,
            variables: _,
        } = self;
    }
}

/// The variables of a node with their types, and the tables of its source.
#[derive(Clone, Copy)]
pub struct Scope<'a> {
    pub tables: &'a Tables<'a>,
    pub variables: &'a Places,
    pub variable_kinds: &'a [Kind],
}

impl<'a> Scope<'a> {
    ghost use Rattle.std.specs.Prelude.{◌≡◌, ◌≤◌, IfOk, length, map, option_map, slice_get};
    ghost use Rattle.lus_values.specs.View.{value_of};
    ghost use Rattle.lus_program.specs.View.{field_of};
    ghost use Rattle.lus_program.specs.Resolved.{kind_of_variable};
    ghost use Rattle.lus_source.specs.Scopes.{entry};
    ghost use Rattle.lus_source.specs.Heads.{head, head_of, heads};
    ghost use Rattle.lus_source.specs.ScopeView.{scope_of, signature_of};
    ghost use Rattle.lus_source.specs.Labels.{name_value, size_of as size, fields_of as fields};

    pub fn variable(&self, name: &str) -> Option<Placed>
        ensures { result ≡ entry (scope_of self.now).variables name.now }
    {
        match self.variables.place(name) {
            Some(place) => match at(self.variable_kinds, place as usize).copied() {
                Some(kind) => Some(Placed { place, kind }),
                None => None,
            },
            None => None,
        }
    }

    /// The type of the variable at a place.
    pub fn variable_kind(&self, place: u32) -> Option<Kind>
        ensures { let s = scope_of self.now in result ≡ kind_of_variable (heads s) (head s) place }
    {
        if (place as usize) < self.variables.len() {
            at(self.variable_kinds, place as usize).copied()
        } else {
            None
        }
    }

    pub fn constant(&self, name: &str) -> Option<&Value>
        ensures { option_map (λ v. value_of v.now) result ≡ entry (scope_of self.now).constants name.now }
    {
        find(&self.tables.names.constants, &self.tables.constants, name)
    }

    pub fn constructor(&self, name: &str) -> Option<Constructor>
        ensures { result ≡ entry (scope_of self.now).constructors name.now }
    {
        let tables = self.tables;
        find(&tables.names.constructors, &tables.constructors, name).copied()
    }

    pub fn kind(&self, name: &str) -> Option<Kind>
        ensures { result ≡ entry (scope_of self.now).types name.now }
    {
        find(&self.tables.names.types, &self.tables.types, name).copied()
    }

    pub fn node(&self, name: &str) -> Option<&Signature>
        ensures { option_map (λ g. signature_of g.now) result ≡ entry (scope_of self.now).nodes name.now }
    {
        find(&self.tables.names.nodes, &self.tables.nodes, name)
    }

    /// The node at a place.
    pub fn node_at(&self, place: u32) -> Option<&Signature>
        ensures { option_map (λ g. head_of (signature_of g.now)) result ≡ slice_get (heads (scope_of self.now)).nodes place }
    {
        if (place as usize) < self.tables.names.nodes.len() {
            at(&self.tables.nodes, place as usize)
        } else {
            None
        }
    }

    /// The value that a constant or a constructor stands for.
    pub fn value(&self, alloc: Global, name: &str) -> Result<Option<Value>, Memory>
        ensures { IfOk result (λ v. option_map value_of v ≡ name_value (scope_of self.now) name.now) }
    {
        if let Some(constant) = self.constant(name) {
            return Ok(Some(copy(alloc, constant)?));
        }
        match self.constructor(name) {
            Some(found) => Ok(Some(Value::Enum(found.enumeration, found.place))),
            None => Ok(None),
        }
    }

    /// How many constructors a type has; 2 for bool.
    pub fn size_of(&self, kind: Kind) -> usize
        ensures { result ≡ size (scope_of self.now) kind }
    {
        match kind {
            Kind::Bool => 2,
            Kind::Int => 0,
            Kind::Enum(declaration) => match self.tables.declared.get(declaration as usize) {
                Some(Declared::Enumeration(constructors)) => constructors.len(),
                Some(Declared::Alias(_)) => 0,
                Some(Declared::Structure(_)) => 0,
                None => 0,
            },
            Kind::Struct(_) => 0,
        }
    }

    /// The fields of a structure; no other type has any.
    pub fn fields_of(&self, kind: Kind) -> &[Field]
        ensures fields { map field_of result.now ≡ fields (scope_of self.now) kind }
        ensures few { length result.now ≤ most_fields }
    {
        match kind {
            Kind::Bool => &[],
            Kind::Int => &[],
            Kind::Enum(_) => &[],
            Kind::Struct(declaration) => match self.tables.declared.get(declaration as usize) {
                Some(Declared::Structure(fields)) => fields.as_slice(),
                Some(Declared::Alias(_)) => &[],
                Some(Declared::Enumeration(_)) => &[],
                None => &[],
            },
        }
    }
}

/// The field of this name, by its place.
pub fn field(fields: &[Field], name: &str) -> Option<Placed>
    requires { length fields.now ≤ most_fields }
    ensures { result ≡ field_named (map field_of fields.now) name.now }
{
    for (place, field) in fields.iter().enumerate() {
        if name == field.name.as_str() {
            return Some(Placed {
                place: place as u32,
                kind: field.kind,
            });
        }
    }
    None
}
