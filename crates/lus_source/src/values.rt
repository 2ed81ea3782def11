//! The constructors and the constants of a source.

ghost use Rattle.std.specs.Prelude.{◌≡◌, ◌≤◌, ◌++◌, IfOk, OnOk, length, map};
ghost use Rattle.std.specs.List.{zip};
ghost use Rattle.lus_syntax.specs.Limits.{most_constructors};
ghost use Rattle.lus_syntax.specs.View.{constant_seen, definition_seen, literal_seen, names_seen, tree_seen};
ghost use Rattle.lus_values.specs.View.{value_of};
ghost use Rattle.lus_source.specs.Sized.{DefinitionCounted};
ghost use Rattle.lus_source.specs.Tables.{constants_by, constructors_by, constructors_from, constructors_of, minus, value_in};

use crate::entries::Constructor;
use crate::named::Named;
use crate::places::{Places, find};
use lus_syntax::{Constant, Definition, Literal, Name};
use lus_values::{Memory, Value};
use std::alloc::Global;

/// The constructors of a source, by their places.
pub fn constructors(alloc: Global, named: &Named) -> Result<Vec<Constructor>, Memory>
    ensures { IfOk result (λ all. all.items ≡ map (λ e. e.1) (constructors_by (tree_seen named.now).types)) }
{
    let declarations = named.tree().types.as_slice();
    let mut all = Vec::new(alloc);
    for (place, declaration) in declarations.iter().enumerate() {
        push_constructors(&mut all, place as u32, &declaration.definition)?;
    }
    Ok(all)
}

/// Appends the constructors that a type has.
fn push_constructors(
    all: &mut Vec<Constructor>,
    enumeration: u32,
    definition: &Definition,
) -> Result<(), Memory>
    requires counted { DefinitionCounted (definition_seen definition.now) }
    ensures { let more = map (λ e. e.1) (constructors_of (definition_seen definition.now) enumeration) in
        OnOk result (all.new.items ≡ all.old.items ++ more) }
{
    match definition {
        Definition::Alias(_) => Ok(()),
        Definition::Enumeration(names) => push_in_order(all, enumeration, names),
        Definition::Structure(_) => Ok(()),
    }
}

fn push_in_order(all: &mut Vec<Constructor>, enumeration: u32, names: &[Name]) -> Result<(), Memory>
    requires few { length names.now ≤ most_constructors }
    ensures { let more = map (λ e. e.1) (constructors_from enumeration 0 (names_seen names.now)) in
        OnOk result (all.new.items ≡ all.old.items ++ more) }
{
    for (number, _name) in names.iter().enumerate() {
        let place = number as u32;
        all.push(Constructor { enumeration, place })?;
    }
    Ok(())
}

/// The values of constants, by these constructors.
pub fn constants(
    alloc: Global,
    names: &Places,
    constructors: &[Constructor],
    constants: &[Constant],
) -> Result<Vec<Value>, Memory>
    ensures { let table = constants_by (zip names.now constructors.now) (map constant_seen constants.now) in
        IfOk result (λ all. map value_of all.items ≡ map (λ e. e.1) table) }
{
    let mut all = Vec::new(alloc);
    for constant in constants {
        all.push(literal(names, constructors, &constant.value))?;
    }
    Ok(all)
}

/// The value of a constant's right side; nil for an unknown constructor.
pub fn literal(names: &Places, constructors: &[Constructor], literal: &Literal) -> Value
    ensures { value_of result ≡ value_in (zip names.now constructors.now) (literal_seen literal.now) }
{
    match literal {
        Literal::Number(number, _) => Value::Int(*number),
        Literal::Negative(_, number, _) => Value::Int(negative(*number)),
        Literal::Truth(truth, _) => Value::Bool(*truth),
        Literal::Constructor(name) => match find(names, constructors, &name.text).copied() {
            Some(found) => Value::Enum(found.enumeration, found.place),
            None => Value::Nil,
        },
    }
}

/// A number after a minus.
fn negative(number: i64) -> i64
    ensures { result ≡ minus number }
{
    if number < 0 { number } else { -number }
}
