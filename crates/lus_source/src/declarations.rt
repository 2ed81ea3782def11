//! What a source declares: the tables of its types, values and nodes, and the names in the declarations of types.

ghost use Rattle.std.specs.Prelude.{◌≡◌, [], flat_map, not, is_none, IfOk, map};
ghost use Rattle.std.specs.List.{list_all};
ghost use Rattle.lus_syntax.specs.View.{definition_seen, tree_seen, type_seen};
ghost use Rattle.lus_source.specs.Named.{constructor_names, is_in, known, DefinitionNamed};
ghost use Rattle.lus_source.specs.ScopeView.{Judged};
ghost use Rattle.lus_source.specs.NameView.{known_seen, texts};
ghost use Rattle.lus_source.specs.Parts.{AreDistinct};
ghost use Rattle.lus_values.specs.Lists.{Each};

use crate::fault::{Cause, Fault, refuse};
use crate::names::Names;
use crate::naming::{Constructors, Own, check_distinct, declare_all, first};
use crate::using::{first_unknown, unknown_type};
use indexmap::IndexSet;
use lus_syntax::{Constant, Definition, Name, Place, Tree, TypeDeclaration};
use std::alloc::Global;

/// The names of a source's types, values and nodes; a fault at a name that stands twice in its space. Constants and constructors
/// are one space.
pub fn declared(alloc: Global, tree: &Tree) -> Result<Names, Fault>
    ensures tables { IfOk result (λ names. known_seen names ≡ known (tree_seen tree.now) []) }
    ensures distinct { Judged result (AreDistinct (tree_seen tree.now)) }
{
    let mut names = Names::new(alloc);
    declare_all::<Own, TypeDeclaration>(&mut names.types, &tree.types)?;
    declare_all(&mut names.constants, &tree.constants)?;
    declare_all::<Constructors, TypeDeclaration>(&mut names.constructors, &tree.types)?;
    refuse(doubled_value(&names.constants, tree), Cause::Twice)?;
    declare_all(&mut names.nodes, &tree.nodes)?;
    Ok(names)
}

/// Where a name is declared as a constant and as a constructor: the second of the two.
fn doubled_value(constants: &IndexSet<String>, tree: &Tree) -> Option<Place>
    ensures { let names = flat_map (λ d. constructor_names (definition_seen d.definition)) tree.now.types.items in
        is_none result ≡ list_all (λ n. not (is_in (texts constants.now.keys) n)) names }
{
    match first::<Constructors, TypeDeclaration>(constants, &tree.types, true) {
        Some(constructor) => Some(second(constants, &tree.constants, constructor)),
        None => None,
    }
}

/// Where the second stands of a constant and the constructor of its name.
fn second(constants: &IndexSet<String>, declared: &[Constant], constructor: &Name) -> Place {
    let place = constructor.span.start;
    let Some(index) = constants.get_index_of(constructor.text.as_str()) else {
        return place;
    };
    match declared.get(index) {
        Some(constant) if constant.name.span.start.byte > place.byte => constant.name.span.start,
        _ => place,
    }
}

/// Checks the names in the declarations of types.
pub fn check_definitions(
    alloc: Global,
    names: &Names,
    declarations: &[TypeDeclaration],
) -> Result<(), Fault>
    ensures { Judged result (Each (λ d. DefinitionNamed (known_seen names.now).types d.definition) (map type_seen declarations.now)) }
{
    for declaration in declarations {
        check_definition(alloc, names, &declaration.definition)?;
    }
    Ok(())
}

fn check_definition(alloc: Global, names: &Names, definition: &Definition) -> Result<(), Fault>
    ensures { Judged result (DefinitionNamed (known_seen names.now).types (definition_seen definition.now)) }
{
    match definition {
        Definition::Alias(name) => refuse(unknown_type(&names.types, name), Cause::Unknown),
        Definition::Enumeration(_) => Ok(()),
        Definition::Structure(fields) => {
            refuse(first_unknown(names, fields), Cause::Unknown)?;
            check_distinct(alloc, fields)
        }
    }
}
