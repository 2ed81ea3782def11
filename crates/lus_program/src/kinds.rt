//! The types of values, variables, operations, fields and outputs; bool where nothing says which.

ghost use Rattle.std.specs.Prelude.{◌≡◌, map, unwrap_or};
ghost use Rattle.lus_values.specs.Lists.{item};
ghost use Rattle.lus_values.specs.View.{value_of};
ghost use Rattle.lus_program.specs.declared.types.Kind.TheVariants.{Bool as OfBool};
ghost use Rattle.lus_program.specs.View.{field_of, node_of, program_seen};
ghost use Rattle.lus_program.specs.Kinds.{fields_in, value_kind as kind_of_value};
ghost use Rattle.lus_program.specs.Resolved.{declared_in, field_kinds, operation_kind};
ghost use Rattle.lus_program.specs.Given.{operator_given, output_given, variable_given};

use crate::node::{Node, Program};
use crate::types::{Declared, Field, Kind};
use lus_values::{Op, Operator, Shape, Value};

/// What an operation gives.
pub fn operation_kind(operation: Op) -> Kind
    ensures { result ≡ operation_kind operation }
{
    match operation.shape() {
        Shape::Int | Shape::Ints => Kind::Int,
        _ => Kind::Bool,
    }
}

/// The fields of the type that is declared at a place, none where it is no structure.
pub fn fields_at(program: &Program, number: u32) -> &[Field]
    ensures { map field_of result.now ≡ fields_in (declared_in (program_seen program.now) number) }
{
    match program.types.get(number as usize) {
        Some(Declared::Structure(fields)) => fields.as_slice(),
        _ => &[],
    }
}

/// The type of a value.
pub fn value_kind(value: &Value) -> Kind
    ensures { result ≡ unwrap_or (kind_of_value (value_of value.now)) OfBool }
{
    match value {
        Value::Bool(_) => Kind::Bool,
        Value::Int(_) => Kind::Int,
        Value::Enum(enumeration, _) => Kind::Enum(*enumeration),
        Value::Struct(_) => Kind::Bool,
        Value::Nil => Kind::Bool,
    }
}

/// The type of a variable of a node.
pub fn variable_kind(node: &Node, variable: u32) -> Kind
    ensures { result ≡ variable_given (node_of node.now) variable }
{
    match node.variables.get(variable as usize) {
        Some(declared) => declared.kind,
        None => Kind::Bool,
    }
}

/// The type of the first output of a node.
pub fn output_kind(program: &Program, called: u32) -> Kind
    ensures { result ≡ output_given (program_seen program.now) called }
{
    match program.nodes.get(called as usize) {
        Some(node) => variable_kind(node, node.inputs),
        None => Kind::Bool,
    }
}

/// The type of the field at a place of a structure.
fn field_kind(program: &Program, structure: Kind, place: u32) -> Kind
    ensures { result ≡ item OfBool (field_kinds (program_seen program.now) structure) place }
{
    let Kind::Struct(number) = structure else {
        return Kind::Bool;
    };
    match fields_at(program, number).get(place as usize) {
        Some(field) => field.kind,
        None => Kind::Bool,
    }
}

/// What an operator gives, by the type of its last operand.
pub fn operator_kind(program: &Program, operator: Operator, last: Kind) -> Kind
    ensures { result ≡ operator_given (program_seen program.now) operator last }
{
    match operator {
        Operator::Compute(operation) => operation_kind(operation),
        Operator::If => last,
        Operator::Structure(number) => Kind::Struct(number),
        Operator::Field(place) => field_kind(program, last, place),
    }
}
