//! Operators, their operands being elaborated already.

ghost use Rattle.std.specs.Prelude.{Some};
ghost use Rattle.lus_syntax.specs.View.{name_seen};
ghost use Rattle.lus_program.specs.Programs.{Expression, arrow as arrow_meant, more, operate, pre as pre_meant};
ghost use Rattle.lus_program.specs.View.{operands_of};
ghost use Rattle.lus_program.specs.Resolved.{operator_kind as kind_of_operator};
ghost use Rattle.lus_program.specs.Kinds.{alike as kind_of_alike};
ghost use Rattle.lus_values.specs.declared.operator.Operator.TheVariants as operators;
ghost use Rattle.lus_source.specs.Heads.{heads, kind_by};
ghost use Rattle.lus_source.specs.Meaning.{field_meant, infix_meant, one, prefix_meant, two};
ghost use Rattle.lus_source.specs.ScopeView.{scope_of};
ghost use Rattle.lus_types.specs.Wholes.{Elaborates, IsElaborated, Means, meaning};

use crate::elaboration::forms::{Elaborated, boxed};
use crate::elaboration::kinds::{alike, member, operator_kind, same, unlike};
use lus_program::{Expr, Form, Kind};
use lus_source::{Cause, Fault, Scope, Whole, field};
use lus_syntax::{Infix, Name, Place, Prefix};
use lus_values::{Op, Operator, Shape};
use std::alloc::Global;

/// Where the last of some operands begins.
fn last_place(place: Place, operands: &[Expr]) -> Place {
    match operands.last() {
        Some(last) => last.place,
        None => place,
    }
}

/// Why two values that have to be of one type aren't, of which the last begins at this place.
fn different(last: Place, first: Kind, second: Kind) -> Cause {
    Cause::Clash(Whole::Alike(last), member(1, first), second)
}

/// Why some operands, of which the last begins at this place, aren't truth values.
fn untrue(last: Place, kinds: &[Kind]) -> Cause {
    for (place, kind) in kinds.iter().enumerate() {
        if !same(Kind::Bool, *kind) {
            return Cause::Clash(Whole::Operator(last), member(place, Kind::Bool), *kind);
        }
    }
    Cause::Unsaid
}

/// Why an operation of this shape doesn't take operands of these types.
fn uncomputed(shape: Shape, last: Place, kinds: &[Kind]) -> Cause {
    let whole = Whole::Operator(last);
    match shape {
        Shape::Int => unlike(whole, &[Kind::Int], kinds),
        Shape::Ints | Shape::Comparison => unlike(whole, &[Kind::Int, Kind::Int], kinds),
        Shape::Bool | Shape::Bools | Shape::Count => untrue(last, kinds),
        Shape::Alike => match kinds {
            [left, right] => different(last, *left, *right),
            _ => Cause::Unsaid,
        },
    }
}

/// Why values of these types don't fit the fields of a structure.
fn unfit(scope: &Scope, structure: Kind, kinds: &[Kind]) -> Cause {
    for (place, field) in scope.fields_of(structure).iter().enumerate() {
        if let Some(found) = kinds.get(place)
            && !same(field.kind, *found)
        {
            let whole = Whole::Structure(structure);
            return Cause::Clash(whole, member(place, field.kind), *found);
        }
    }
    Cause::Unsaid
}

/// Why an operator doesn't take operands of these types, of which the last begins at this place.
fn misapplied(scope: &Scope, operator: Operator, last: Place, kinds: &[Kind]) -> Cause {
    match operator {
        Operator::Compute(operation) => uncomputed(operation.shape(), last, kinds),
        Operator::If => match kinds {
            [Kind::Bool, left, right] => different(last, *left, *right),
            [condition, ..] => Cause::Clash(
                Whole::Operator(last),
                member(0, Kind::Bool),
                *condition,
            ),
            [] => Cause::Unsaid,
        },
        Operator::Structure(declaration) => unfit(scope, Kind::Struct(declaration), kinds),
        Operator::Field(_) => Cause::Unsaid,
    }
}

/// An operator on operands of these types.
pub fn operated(
    alloc: Global,
    scope: &Scope,
    place: Place,
    operator: Operator,
    kinds: &[Kind],
    operands: Vec<Expr>,
) -> Result<Elaborated, Fault>
    ensures { let kind = kind_of_operator (heads (scope_of scope.now)) operator kinds.now in
        Elaborates result kind (operate operator (operands_of operands.items)) }
{
    let Some(kind) = operator_kind(scope, operator, kinds) else {
        let last = last_place(place, &operands);
        return Err(Fault::At(place, misapplied(scope, operator, last, kinds)));
    };
    let expr = boxed(alloc, place, Form::Operate(operator, operands))?;
    Ok(Elaborated { expr, kind })
}

/// An operator on one operand.
fn on_one(
    alloc: Global,
    scope: &Scope,
    place: Place,
    operator: Operator,
    operand: Elaborated,
) -> Result<Elaborated, Fault>
    ensures { let s = scope_of scope.now in
        (a : Expression) → Means s operand a → IsElaborated s result (operate operator (one a)) }
{
    let kinds = [operand.kind];
    let operands = vec![in alloc; Box::into_inner(operand.expr)]?;
    operated(alloc, scope, place, operator, &kinds, operands)
}

/// A field of a structure.
pub fn projected(
    alloc: Global,
    scope: &Scope,
    place: Place,
    operand: Elaborated,
    name: &Name,
) -> Result<Elaborated, Fault>
    ensures { let s = scope_of scope.now in
        (a : Expression) → Means s operand a → IsElaborated s result (field_meant s (kind_by s a) (name_seen name.now).text a) }
{
    let Some(found) = field(scope.fields_of(operand.kind), &name.text) else {
        return Err(Fault::At(name.span.start, Cause::Lacks(operand.kind)));
    };
    on_one(alloc, scope, place, Operator::Field(found.place), operand)
}

/// An operator before its operand.
pub fn prefixed(
    alloc: Global,
    scope: &Scope,
    place: Place,
    op: Prefix,
    operand: Elaborated,
) -> Result<Elaborated, Fault>
    ensures { let s = scope_of scope.now in
        (a : Expression) → Means s operand a → IsElaborated s result (prefix_meant op a) }
{
    let operation = match op {
        Prefix::Pre => return pre(alloc, place, operand),
        Prefix::Not => Op::Not,
        Prefix::Negate => Op::Negate,
    };
    on_one(alloc, scope, place, Operator::Compute(operation), operand)
}

/// An operator between its operands.
pub fn infixed(
    alloc: Global,
    scope: &Scope,
    place: Place,
    op: Infix,
    left: Elaborated,
    right: Elaborated,
) -> Result<Elaborated, Fault>
    ensures { let s = scope_of scope.now in
        (a b : Expression) → Means s left a → Means s right b → IsElaborated s result (infix_meant op a b) }
{
    match op {
        Infix::Compute(operation) => {
            let kinds = [left.kind, right.kind];
            let operands = vec![in alloc; Box::into_inner(left.expr), Box::into_inner(right.expr)]?;
            let operator = Operator::Compute(operation);
            operated(alloc, scope, place, operator, &kinds, operands)
        }
        Infix::Arrow => arrow(alloc, place, left, right),
        Infix::Fby => {
            let kept = pre(alloc, right.expr.place, right)?;
            arrow(alloc, place, left, kept)
        }
    }
}

/// `if`
pub fn chosen(
    alloc: Global,
    scope: &Scope,
    place: Place,
    condition: Elaborated,
    left: Elaborated,
    right: Elaborated,
) -> Result<Elaborated, Fault>
    ensures { let s = scope_of scope.now in
        (c a b : Expression) → Means s condition c → Means s left a → Means s right b
        → IsElaborated s result (operate operators.If (more c (two a b))) }
{
    let kinds = [condition.kind, left.kind, right.kind];
    let operands = vec![in alloc;
        Box::into_inner(condition.expr),
        Box::into_inner(left.expr),
        Box::into_inner(right.expr),
    ]?;
    operated(alloc, scope, place, Operator::If, &kinds, operands)
}

/// `pre`
fn pre(alloc: Global, place: Place, operand: Elaborated) -> Result<Elaborated, Fault>
    ensures { Elaborates result (Some operand.kind) (pre_meant (meaning operand)) }
{
    let Elaborated { expr, kind } = operand;
    let expr = boxed(alloc, place, Form::Pre(expr))?;
    Ok(Elaborated { expr, kind })
}

/// `->`
fn arrow(
    alloc: Global,
    place: Place,
    first: Elaborated,
    later: Elaborated,
) -> Result<Elaborated, Fault>
    ensures { Elaborates result (kind_of_alike first.kind later.kind) (arrow_meant (meaning first) (meaning later)) }
{
    let Some(kind) = alike(first.kind, later.kind) else {
        return Err(Fault::At(place, different(later.expr.place, first.kind, later.kind)));
    };
    let expr = boxed(alloc, place, Form::Arrow(first.expr, later.expr))?;
    Ok(Elaborated { expr, kind })
}
