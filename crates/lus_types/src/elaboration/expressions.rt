//! The program's expression for an expression of the source, and its type.

ghost use Rattle.std.specs.Prelude.{◌≡◌, IfOk, MatchResult, None, Some, length};
ghost use Rattle.lus_syntax.specs.View.{expression_seen, name_seen};
ghost use Rattle.lus_source.specs.Heads.{kinds_by};
ghost use Rattle.lus_program.specs.Programs.{more, operate};
ghost use Rattle.lus_program.specs.View.{expression_of};
ghost use Rattle.lus_values.specs.declared.operator.Operator.TheVariants as operators;
ghost use Rattle.lus_source.specs.Meaning.{all_meant, call_meant, infix_meant, meant, merge_meant, structure_meant, two, variadic_meant};
ghost use Rattle.lus_source.specs.ScopeView.{Faulty, scope_of};
ghost use Rattle.lus_types.specs.Wholes.{AllMean, IsElaborated, given_by, parts_seen};

use crate::elaboration::arrangement::arranged;
use crate::elaboration::forms::{Elaborated, boxed, literal, named, place_of, sampled};
use crate::elaboration::kinds::{member, merged, same};
use crate::elaboration::operands::Operands;
use crate::elaboration::operators::{chosen, infixed, operated, prefixed, projected};
use crate::elaboration::parts::{
    Members, are_arguments, called, list_operation, member_places, miscalled, miscounted,
};
use lus_program::{Expr, Form, Kind};
use lus_source::{Cause, Fault, Scope, Whole};
use lus_syntax::{Expr as Source, Infix, ListOperator, Name, Part, Place};
use lus_values::{Operator, Value};
use std::alloc::Global;

/// The program's expression for an expression, and its type; a fault at its first token where it has none.
#[cycle(elaborate)]
pub fn elaborate(alloc: Global, scope: &Scope, source: &Source) -> Result<Elaborated, Fault>
    ensures { let s = scope_of scope.now in
        IsElaborated s result (meant s (expression_seen source.now)) }
{
    let place = place_of(source);
    match source {
        Source::Number(number, _) => literal(alloc, place, Value::Int(*number)),
        Source::Truth(truth, _) => literal(alloc, place, Value::Bool(*truth)),
        Source::Name(name) => named(alloc, scope, name),
        Source::Call(name, arguments) => call(alloc, scope, name, arguments),
        Source::Structure(name, fields) => structure(alloc, scope, name, fields),
        Source::Merge(_, variable, branches) => merge(alloc, scope, place, variable, branches),
        Source::Variadic(op, _, arguments) => variadic(alloc, scope, place, *op, arguments),
        Source::Field(operand, name) => {
            let operand = elaborate(alloc, scope, operand)?;
            projected(alloc, scope, place, operand, name)
        }
        Source::Parentheses(span, inner) => {
            let mut inner = elaborate(alloc, scope, inner)?;
            inner.expr.place = span.start;
            Ok(inner)
        }
        Source::When(operand, test) => {
            let operand = elaborate(alloc, scope, operand)?;
            sampled(alloc, scope, place, operand, test)
        }
        Source::Unary(op, _, operand) => {
            let operand = elaborate(alloc, scope, operand)?;
            prefixed(alloc, scope, place, *op, operand)
        }
        Source::Binary(op, left, right) => elaborate_infix(alloc, scope, place, *op, left, right),
        Source::If(_, condition, left, right) => {
            elaborate_if(alloc, scope, place, condition, left, right)
        }
    }
}

/// An operator between its operands.
#[cycle(elaborate)]
fn elaborate_infix(
    alloc: Global,
    scope: &Scope,
    place: Place,
    op: Infix,
    left: &Source,
    right: &Source,
) -> Result<Elaborated, Fault>
    ensures { let s = scope_of scope.now in
        IsElaborated s result (infix_meant op (meant s (expression_seen left.now)) (meant s (expression_seen right.now))) }
{
    let left = elaborate(alloc, scope, left)?;
    let right = elaborate(alloc, scope, right)?;
    infixed(alloc, scope, place, op, left, right)
}

/// `if`
#[cycle(elaborate)]
fn elaborate_if(
    alloc: Global,
    scope: &Scope,
    place: Place,
    condition: &Source,
    left: &Source,
    right: &Source,
) -> Result<Elaborated, Fault>
    ensures { let s = scope_of scope.now in
        let branches = two (meant s (expression_seen left.now)) (meant s (expression_seen right.now)) in
        IsElaborated s result (operate operators.If (more (meant s (expression_seen condition.now)) branches)) }
{
    let condition = elaborate(alloc, scope, condition)?;
    let left = elaborate(alloc, scope, left)?;
    let right = elaborate(alloc, scope, right)?;
    chosen(alloc, scope, place, condition, left, right)
}

/// A call, and the types of what it gives.
#[cycle(elaborate)]
pub fn whole_call<'a>(
    alloc: Global,
    scope: &'a Scope,
    name: &Name,
    arguments: &[Part],
) -> Result<(Box<Expr>, &'a [Kind]), Fault>
    ensures { let s = scope_of scope.now in
        let parts = parts_seen arguments.now in
        let means = call_meant s (name_seen name.now).text parts (all_meant s parts) in
        MatchResult result (λ x. (given_by s means ≡ Some x.1.now) × (expression_of x.0.value ≡ means))
        (Faulty (given_by s means ≡ None)) }
{
    let operands = elaborate_all(alloc, scope, arguments)?;
    let (exprs, kinds) = operands.into_parts();
    let place = name.span.start;
    let Some((node, outputs)) = called(scope, name, arguments, &kinds) else {
        return Err(Fault::At(place, miscalled(scope, name, &kinds)));
    };
    let expr = boxed(alloc, place, Form::Call(node, exprs))?;
    Ok((expr, outputs))
}

/// A call with one output.
#[cycle(elaborate)]
fn call(alloc: Global, scope: &Scope, name: &Name, arguments: &[Part]) -> Result<Elaborated, Fault>
    ensures { let s = scope_of scope.now in
        let parts = parts_seen arguments.now in
        IsElaborated s result (call_meant s (name_seen name.now).text parts (all_meant s parts)) }
{
    let (expr, outputs) = whole_call(alloc, scope, name, arguments)?;
    match outputs {
        [kind] => Ok(Elaborated { expr, kind: *kind }),
        _ => Err(Fault::At(name.span.start, Cause::Results(outputs.len()))),
    }
}

/// An operator before a list of operands: one truth value or more.
#[cycle(elaborate)]
fn variadic(
    alloc: Global,
    scope: &Scope,
    place: Place,
    op: ListOperator,
    arguments: &[Part],
) -> Result<Elaborated, Fault>
    ensures { let s = scope_of scope.now in
        let parts = parts_seen arguments.now in
        IsElaborated s result (variadic_meant op parts (all_meant s parts)) }
{
    let operands = elaborate_all(alloc, scope, arguments)?;
    let (exprs, kinds) = operands.into_parts();
    if !are_arguments(arguments) {
        return Err(Fault::At(place, Cause::Unsaid));
    }
    let operator = Operator::Compute(list_operation(op));
    operated(alloc, scope, place, operator, &kinds, exprs)
}

/// Why branches of these types aren't merged.
fn unmerged(branches: &[Expr], kinds: &[Kind]) -> Cause {
    let (Some(first), Some(kind)) = (branches.first(), kinds.first()) else {
        return Cause::Unsaid;
    };
    for (place, branch) in branches.iter().enumerate() {
        if let Some(other) = kinds.get(place)
            && !same(*kind, *other)
        {
            let whole = Whole::Merge(first.place, branch.place);
            return Cause::Clash(whole, member(place, *kind), *other);
        }
    }
    Cause::Unsaid
}

/// Why a name isn't that of a structure.
fn unstructured(scope: &Scope, name: &Name) -> Cause {
    match scope.kind(&name.text) {
        Some(kind) => Cause::Lacks(kind),
        None => Cause::Unsaid,
    }
}

/// A merge: each constructor of its variable's type stands exactly once, and the branches are of one type.
#[cycle(elaborate)]
fn merge(
    alloc: Global,
    scope: &Scope,
    place: Place,
    variable: &Name,
    branches: &[Part],
) -> Result<Elaborated, Fault>
    ensures { let s = scope_of scope.now in
        let parts = parts_seen branches.now in
        IsElaborated s result (merge_meant s (name_seen variable.now).text parts (all_meant s parts)) }
{
    let operands = elaborate_all(alloc, scope, branches)?;
    let Some(clock) = scope.variable(&variable.text) else {
        return Err(Fault::At(variable.span.start, Cause::Unsaid));
    };
    let places = member_places(alloc, scope, Members::Constructors, clock.kind, branches)?;
    let size = scope.size_of(clock.kind);
    let first = operands.kinds.first().copied();
    let Some(operands) = arranged(size, places, operands) else {
        let cause = miscounted(
            scope,
            Members::Constructors,
            clock.kind,
            branches,
            size,
            first,
        );
        return Err(Fault::At(place, cause));
    };
    let (exprs, kinds) = operands.into_parts();
    let Some(kind) = merged(scope, clock.place, &kinds) else {
        return Err(Fault::At(place, unmerged(&exprs, &kinds)));
    };
    let expr = boxed(alloc, place, Form::Merge(clock.place, exprs))?;
    Ok(Elaborated { expr, kind })
}

/// A structure's value: its type is a structure, and each field stands exactly once, with a value of its type.
#[cycle(elaborate)]
fn structure(
    alloc: Global,
    scope: &Scope,
    name: &Name,
    fields: &[Part],
) -> Result<Elaborated, Fault>
    ensures { let s = scope_of scope.now in
        let parts = parts_seen fields.now in
        IsElaborated s result (structure_meant s (name_seen name.now).text parts (all_meant s parts)) }
{
    let operands = elaborate_all(alloc, scope, fields)?;
    let place = name.span.start;
    let Some(Kind::Struct(declaration)) = scope.kind(&name.text) else {
        return Err(Fault::At(place, unstructured(scope, name)));
    };
    let kind = Kind::Struct(declaration);
    let places = member_places(alloc, scope, Members::Fields, kind, fields)?;
    let size = scope.fields_of(kind).len();
    let Some(operands) = arranged(size, places, operands) else {
        let cause = miscounted(scope, Members::Fields, kind, fields, size, None);
        return Err(Fault::At(place, cause));
    };
    let (exprs, kinds) = operands.into_parts();
    let operator = Operator::Structure(declaration);
    operated(alloc, scope, place, operator, &kinds, exprs)
}

/// The values of parts one by one, and their types.
#[cycle(elaborate)]
fn elaborate_all(alloc: Global, scope: &Scope, parts: &[Part]) -> Result<Operands, Fault>
    ensures elaborated { let s = scope_of scope.now in
        let means = all_meant s (parts_seen parts.now) in
        MatchResult result (λ x. AllMean s x means) (Faulty (kinds_by s means ≡ None)) }
    ensures exprs { IfOk result (λ x. length x.exprs.items ≡ length parts.now) }
    ensures kinds { IfOk result (λ x. length x.kinds.items ≡ length parts.now) }
{
    let mut operands = Operands::with_capacity(alloc, parts.len())?;
    for part in parts {
        let operand = elaborate(alloc, scope, &part.value)?;
        operands.push(operand)?;
    }
    Ok(operands)
}
