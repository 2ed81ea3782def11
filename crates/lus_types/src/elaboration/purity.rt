//! Functions, which keep no memory.

ghost use Rattle.std.specs.Prelude.{◌≡◌, is_none};
ghost use Rattle.lus_syntax.specs.View.{expression_seen};
ghost use Rattle.lus_source.specs.WellTyped.{calls_function as function_called, is_pure, are_pure, recalls as recalls_past, remembers as remembers_past};
ghost use Rattle.lus_source.specs.ScopeView.{scope_of};
ghost use Rattle.lus_types.specs.Wholes.{parts_seen};

use crate::elaboration::forms::place_of;
use lus_source::Scope;
use lus_syntax::{Expr, Infix, NodeKind, Part, Place, Prefix};

fn remembers(op: Prefix) -> bool
    ensures { result ≡ remembers_past op }
{
    matches!(op, Prefix::Pre)
}

fn recalls(op: Infix) -> bool
    ensures { result ≡ recalls_past op }
{
    matches!(op, Infix::Fby | Infix::Arrow)
}

fn calls_function(scope: &Scope, name: &str) -> bool
    ensures { result ≡ function_called (scope_of scope.now) name.now }
{
    matches!(scope.node(name), Some(node) if matches!(node.kind, NodeKind::Function))
}

/// The first place at which an expression has a memory, or calls a node that is no function.
#[cycle(memory)]
pub fn memory(scope: &Scope, source: &Expr) -> Option<Place>
    ensures { is_none result ≡ is_pure (scope_of scope.now) (expression_seen source.now) }
{
    match source {
        Expr::Number(_, _) | Expr::Truth(_, _) | Expr::Name(_) => None,
        Expr::Call(name, arguments) => {
            if calls_function(scope, &name.text) {
                memory_in(scope, arguments)
            } else {
                Some(name.span.start)
            }
        }
        Expr::Structure(_, fields) => memory_in(scope, fields),
        Expr::Merge(_, _, branches) => memory_in(scope, branches),
        Expr::Variadic(_, _, operands) => memory_in(scope, operands),
        Expr::Field(operand, _) | Expr::Parentheses(_, operand) | Expr::When(operand, _) => {
            memory(scope, operand)
        }
        Expr::Unary(op, span, operand) => {
            if remembers(*op) {
                Some(span.start)
            } else {
                memory(scope, operand)
            }
        }
        Expr::Binary(op, left, right) => {
            if recalls(*op) {
                return Some(place_of(source));
            }
            memory(scope, left).or(memory(scope, right))
        }
        Expr::If(_, condition, left, right) => memory(scope, condition)
            .or(memory(scope, left))
            .or(memory(scope, right)),
    }
}

#[cycle(memory)]
fn memory_in(scope: &Scope, parts: &[Part]) -> Option<Place>
    ensures { is_none result ≡ are_pure (scope_of scope.now) (parts_seen parts.now) }
{
    for part in parts {
        if let Some(place) = memory(scope, &part.value) {
            return Some(place);
        }
    }
    None
}
