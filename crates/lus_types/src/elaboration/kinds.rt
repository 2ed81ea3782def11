//! The types of the program's forms, by the rules of lus_program.

ghost use Rattle.std.specs.Prelude.{◌≡◌, map, option_map, slice_get};
ghost use Rattle.std.specs.List.{list_all};
ghost use Rattle.std.specs.Option.{option_and_then};
ghost use Rattle.lus_program.specs.View.{field_of};
ghost use Rattle.lus_program.specs.Kinds.{same as same_kind, all_same as all_same_kinds, alike as alike_kind, common_kind as kind_of_all, value_kind as kind_of_value};
ghost use Rattle.lus_program.specs.Resolved.{op_kind as kind_of_op, if_kind as kind_of_if, takes as shape_takes, field_kinds, projected as field_projected, operator_kind as kind_of_operator, test_fits as fits, merged as kind_merged, kind_of_variable, results as results_of};
ghost use Rattle.lus_source.specs.Heads.{head, heads};
ghost use Rattle.lus_source.specs.ScopeView.{scope_of};
ghost use Rattle.lus_values.specs.View.{value_of};

use lus_program::{Field, Kind, Test, operation_kind};
use lus_source::{Cause, Member, Scope, Whole};
use lus_values::{Op, Operator, Shape, Value};

pub fn same(left: Kind, right: Kind) -> bool
    ensures { result ≡ same_kind left right }
{
    match (left, right) {
        (Kind::Bool, Kind::Bool) | (Kind::Int, Kind::Int) => true,
        (Kind::Enum(one), Kind::Enum(other)) => one == other,
        (Kind::Struct(one), Kind::Struct(other)) => one == other,
        _ => false,
    }
}

/// Whether two lists are of the same types, one by one.
pub fn all_same(left: &[Kind], right: &[Kind]) -> bool
    ensures { result ≡ all_same_kinds left.now right.now }
{
    match left {
        [] => right.is_empty(),
        [one, left @ ..] => match right {
            [] => false,
            [other, right @ ..] => same(*one, *other) && all_same(left, right),
        },
    }
}

/// A part by its number, and a type.
pub fn member(number: usize, kind: Kind) -> Member {
    Member { number, kind }
}

/// Where the first of some parts stands that hasn't the type that is wanted, else how many there are in both.
fn first_unlike(wanted: &[Kind], found: &[Kind]) -> usize {
    for (number, (one, other)) in wanted.iter().zip(found.iter()).enumerate() {
        if !same(*one, *other) {
            return number;
        }
    }
    wanted.len().min(found.len())
}

/// Why parts of some types don't stand where others are wanted.
pub fn unlike(whole: Whole, wanted: &[Kind], found: &[Kind]) -> Cause {
    let number = first_unlike(wanted, found);
    match (wanted.get(number), found.get(number)) {
        (Some(kind), Some(other)) if wanted.len() == found.len() => {
            Cause::Clash(whole, member(number, *kind), *other)
        }
        (Some(kind), _) if wanted.len() > found.len() => {
            let lacking = Some(member(number, *kind));
            Cause::Count(whole, wanted.len(), found.len(), lacking)
        }
        _ => Cause::Count(whole, wanted.len(), found.len(), None),
    }
}

/// The type of two of one type.
pub fn alike(left: Kind, right: Kind) -> Option<Kind>
    ensures { result ≡ alike_kind left right }
{
    same(left, right).then_some(left)
}

fn all_are(kind: Kind, kinds: &[Kind]) -> bool
    ensures { result ≡ list_all (same_kind kind) kinds.now }
{
    match kinds {
        [] => true,
        [first, rest @ ..] => same(kind, *first) && all_are(kind, rest),
    }
}

/// The one type of all branches.
fn common_kind(branches: &[Kind]) -> Option<Kind>
    ensures { result ≡ kind_of_all branches.now }
{
    match branches {
        [first, rest @ ..] if all_are(*first, rest) => Some(*first),
        _ => None,
    }
}

/// Whether an operator of this shape takes operands of these types.
fn takes(shape: Shape, operands: &[Kind]) -> bool
    ensures { result ≡ shape_takes shape operands.now }
{
    match shape {
        Shape::Int => all_same(&[Kind::Int], operands),
        Shape::Ints | Shape::Comparison => all_same(&[Kind::Int, Kind::Int], operands),
        Shape::Bool => all_same(&[Kind::Bool], operands),
        Shape::Bools => all_same(&[Kind::Bool, Kind::Bool], operands),
        Shape::Alike => matches!(operands, [left, right] if same(*left, *right)),
        Shape::Count => !operands.is_empty() && all_are(Kind::Bool, operands),
    }
}

fn op_kind(operation: Op, operands: &[Kind]) -> Option<Kind>
    ensures { result ≡ kind_of_op operation operands.now }
{
    takes(operation.shape(), operands).then_some(operation_kind(operation))
}

fn if_kind(operands: &[Kind]) -> Option<Kind>
    ensures { result ≡ kind_of_if operands.now }
{
    match operands {
        [condition, left, right] if same(Kind::Bool, *condition) => alike(*left, *right),
        _ => None,
    }
}

/// Whether values of these types fit the fields, one by one.
fn all_fit(fields: &[Field], values: &[Kind]) -> bool
    ensures { result ≡ all_same_kinds (map (λ f. f.kind) (map field_of fields.now)) values.now }
{
    match fields {
        [] => values.is_empty(),
        [field, fields @ ..] => match values {
            [] => false,
            [value, values @ ..] => same(field.kind, *value) && all_fit(fields, values),
        },
    }
}

fn field_kind(scope: &Scope, structure: Kind, field: u32) -> Option<Kind>
    ensures { result ≡ slice_get (field_kinds (heads (scope_of scope.now)) structure) field }
{
    Some(scope.fields_of(structure).get(field as usize)?.kind)
}

fn projected(scope: &Scope, field: u32, operands: &[Kind]) -> Option<Kind>
    ensures { result ≡ field_projected (heads (scope_of scope.now)) field operands.now }
{
    match operands {
        [structure] => field_kind(scope, *structure, field),
        _ => None,
    }
}

/// What an operator gives for operands of these types, where it takes them.
pub fn operator_kind(scope: &Scope, operator: Operator, operands: &[Kind]) -> Option<Kind>
    ensures { result ≡ kind_of_operator (heads (scope_of scope.now)) operator operands.now }
{
    match operator {
        Operator::Compute(operation) => op_kind(operation, operands),
        Operator::If => if_kind(operands),
        Operator::Structure(declaration) => {
            let kind = Kind::Struct(declaration);
            all_fit(scope.fields_of(kind), operands).then_some(kind)
        }
        Operator::Field(field) => projected(scope, field, operands),
    }
}

/// Whether the test's variable may hold its constructor.
pub fn test_fits(scope: &Scope, test: Test) -> bool
    ensures { let s = scope_of scope.now in result ≡ fits (heads s) (head s) test }
{
    match scope.variable_kind(test.variable) {
        Some(kind) => (test.constructor as usize) < scope.size_of(kind),
        None => false,
    }
}

/// What a merge over the variable at this place gives for branches of these types.
pub fn merged(scope: &Scope, variable: u32, branches: &[Kind]) -> Option<Kind>
    ensures { let s = scope_of scope.now in
        result ≡ option_and_then (kind_merged (heads s) (head s) branches.now) (kind_of_variable (heads s) (head s) variable) }
{
    let kind = scope.variable_kind(variable)?;
    if branches.len() == scope.size_of(kind) {
        common_kind(branches)
    } else {
        None
    }
}

/// What a call of the node at this place gives for arguments of these types.
pub fn results<'a>(scope: &'a Scope, node: u32, arguments: &[Kind]) -> Option<&'a [Kind]>
    ensures { option_map (λ ks. ks.now) result ≡ results_of (heads (scope_of scope.now)) node arguments.now }
{
    let called = scope.node_at(node)?;
    all_same(&called.inputs, arguments).then_some(called.outputs.as_slice())
}

/// The type of a value.
pub fn value_kind(value: &Value) -> Option<Kind>
    ensures { result ≡ kind_of_value (value_of value.now) }
{
    match value {
        Value::Bool(_) => Some(Kind::Bool),
        Value::Int(_) => Some(Kind::Int),
        Value::Enum(enumeration, _) => Some(Kind::Enum(*enumeration)),
        _ => None,
    }
}
