//! Constants: one with a declared type has that type.

ghost use Rattle.std.specs.Prelude.{◌≡◌, map};
ghost use Rattle.std.specs.List.{list_all};
ghost use Rattle.lus_syntax.specs.View.{constant_seen};
ghost use Rattle.lus_source.specs.ScopeView.{Tested, tables_seen};
ghost use Rattle.lus_types.specs.ByScope.{constant_fits};

use crate::elaboration::{member, same, value_kind};
use lus_source::{Cause, Fault, Tables, Whole, kind_of_name, literal};
use lus_syntax::{Constant, Literal, Place};

/// The place of a literal's first token.
fn literal_place(literal: &Literal) -> Place {
    match literal {
        Literal::Number(_, span) => span.start,
        Literal::Negative(minus, _, _) => minus.start,
        Literal::Truth(_, span) => span.start,
        Literal::Constructor(name) => name.span.start,
    }
}

/// Whether a constant has the type that it declares.
fn is_typed(tables: &Tables, constant: &Constant) -> bool
    ensures { result ≡ constant_fits (tables_seen tables.now) (constant_seen constant.now) }
{
    let Some(name) = &constant.type_name else {
        return true;
    };
    match value_kind(&literal(
        &tables.names.constructors,
        &tables.constructors,
        &constant.value,
    )) {
        Some(kind) => same(kind, kind_of_name(&tables.names.types, &tables.types, name)),
        None => false,
    }
}

/// Why a constant doesn't have the type that it declares.
fn mistyped(tables: &Tables, constant: &Constant) -> Cause {
    let Some(name) = &constant.type_name else {
        return Cause::Unsaid;
    };
    let value = literal(
        &tables.names.constructors,
        &tables.constructors,
        &constant.value,
    );
    let wanted = kind_of_name(&tables.names.types, &tables.types, name);
    match value_kind(&value) {
        Some(kind) => Cause::Clash(Whole::Constant, member(0, wanted), kind),
        None => Cause::Unsaid,
    }
}

/// Each constant has the type that it declares.
pub fn check_constants(tables: &Tables, constants: &[Constant]) -> Result<(), Fault>
    ensures { Tested result (list_all (constant_fits (tables_seen tables.now)) (map constant_seen constants.now)) }
{
    for constant in constants {
        if !is_typed(tables, constant) {
            return Err(Fault::At(literal_place(&constant.value), mistyped(tables, constant)));
        }
    }
    Ok(())
}
