//! What each form of expression means, its operands being elaborated already, and its type.

ghost use Rattle.std.specs.Prelude.{◌≡◌, Some, IfOk, IfSome, is_some};
ghost use Rattle.lus_syntax.specs.View.{name_seen, test_seen, label_seen};
ghost use Rattle.lus_program.specs.Programs.{Expression, literal as literal_meant, when as when_meant};
ghost use Rattle.lus_program.specs.View.{expression_in, expression_of};
ghost use Rattle.lus_program.specs.Kinds.{value_kind as kind_of_value};
ghost use Rattle.lus_program.specs.Resolved.{test_fits as fits};
ghost use Rattle.lus_values.specs.View.{value_of};
ghost use Rattle.lus_source.specs.Heads.{head, heads};
ghost use Rattle.lus_source.specs.Labels.{test_placed as placed_test, truth_place as place_of_truth, label_place as place_of_label, asked_place as place_asked, test_variable as variable_of_test};
ghost use Rattle.lus_source.specs.Meaning.{name_meant, test_meant, where_found};
ghost use Rattle.lus_source.specs.ScopeView.{scope_of};
ghost use Rattle.lus_types.specs.Wholes.{Elaborates, IsElaborated, Means};

use crate::elaboration::kinds::{member, same, test_fits, value_kind};
use lus_program::{Expr, Form, Kind, Test};
use lus_source::{Cause, Fault, Scope};
use lus_syntax::{Expr as Source, Label, Name, Place, Test as SourceTest};
use lus_values::Value;
use std::alloc::{AllocError, Global};

/// An expression of the program and its type. It is boxed at once, since expressions are large.
#[derive(Drop)]
pub struct Elaborated {
    pub expr: Box<Expr>,
    pub kind: Kind,
}

/// The place of an expression's first token.
pub fn place_of(source: &Source) -> Place {
    match source {
        Source::Number(_, span) => span.start,
        Source::Truth(_, span) => span.start,
        Source::Name(name) => name.span.start,
        Source::Call(name, _) => name.span.start,
        Source::Structure(name, _) => name.span.start,
        Source::Merge(span, _, _) => span.start,
        Source::Variadic(_, span, _) => span.start,
        Source::Field(operand, _) => place_of(operand),
        Source::Parentheses(span, _) => span.start,
        Source::When(operand, _) => place_of(operand),
        Source::Unary(_, span, _) => span.start,
        Source::Binary(_, left, _) => place_of(left),
        Source::If(span, _, _, _) => span.start,
    }
}

/// An expression of this form, whose first token stands at this place.
pub fn boxed(alloc: Global, place: Place, form: Form) -> Result<Box<Expr>, AllocError>
    ensures { IfOk result (λ x. expression_of x.value ≡ expression_in form) }
{
    Ok(Box::new(alloc, Expr { place, form })?)
}

/// A value.
pub fn literal(alloc: Global, place: Place, value: Value) -> Result<Elaborated, Fault>
    ensures { Elaborates result (kind_of_value (value_of value)) (literal_meant (value_of value)) }
{
    let Some(kind) = value_kind(&value) else {
        return Err(Fault::At(place, Cause::Unsaid));
    };
    let expr = boxed(alloc, place, Form::Literal(value))?;
    Ok(Elaborated { expr, kind })
}

/// A name: a variable hides a constant or a constructor.
pub fn named(alloc: Global, scope: &Scope, name: &Name) -> Result<Elaborated, Fault>
    ensures { let s = scope_of scope.now in
        IsElaborated s result (name_meant s (name_seen name.now).text) }
{
    let place = name.span.start;
    if let Some(variable) = scope.variable(&name.text) {
        let Some(kind) = scope.variable_kind(variable.place) else {
            return Err(Fault::At(place, Cause::Unsaid));
        };
        let expr = boxed(alloc, place, Form::Variable(variable.place))?;
        return Ok(Elaborated { expr, kind });
    }
    match scope.value(alloc, &name.text)? {
        Some(value) => literal(alloc, place, value),
        None => Err(Fault::At(place, Cause::Unsaid)),
    }
}

fn truth_place(kind: Kind, truth: bool) -> Option<u32>
    ensures { result ≡ place_of_truth kind truth }
{
    same(kind, Kind::Bool).then_some(u32::from(truth))
}

/// The place of a label among the constructors of a type.
pub fn label_place(scope: &Scope, kind: Kind, label: &Label) -> Option<u32>
    ensures { result ≡ place_of_label (scope_of scope.now) kind (label_seen label.now) }
{
    match label {
        Label::Truth(truth, _) => truth_place(kind, *truth),
        Label::Constructor(name) => match scope.constructor(&name.text) {
            Some(found) if same(kind, Kind::Enum(found.enumeration)) => Some(found.place),
            _ => None,
        },
    }
}

fn asked_place(scope: &Scope, kind: Kind, test: &SourceTest) -> Option<u32>
    ensures { result ≡ place_asked (scope_of scope.now) kind (test_seen test.now) }
{
    match test {
        SourceTest::Holds(_) => truth_place(kind, true),
        SourceTest::Fails(_, _) => truth_place(kind, false),
        SourceTest::Is(label, _) => label_place(scope, kind, label),
    }
}

/// The variable that a test asks about.
pub fn clock_variable(test: &SourceTest) -> &Name
    ensures { (name_seen result.now).text ≡ variable_of_test (test_seen test.now) }
{
    match test {
        SourceTest::Holds(variable) => variable,
        SourceTest::Fails(_, variable) => variable,
        SourceTest::Is(_, variable) => variable,
    }
}

/// The test of the program, by the places of its variable and its constructor.
fn placed(scope: &Scope, source: &SourceTest) -> Option<Test>
    ensures { result ≡ placed_test (scope_of scope.now) (test_seen source.now) }
{
    let variable = scope.variable(&clock_variable(source).text)?;
    let constructor = asked_place(scope, variable.kind, source)?;
    Some(Test {
        variable: variable.place,
        constructor,
    })
}

/// The test of the program, where its variable may hold its constructor.
pub fn test(scope: &Scope, source: &SourceTest) -> Option<Test>
    ensures placed { IfSome result (λ t. placed_test (scope_of scope.now) (test_seen source.now) ≡ Some t) }
    ensures meant { IfSome result (λ t. t ≡ test_meant (scope_of scope.now) (test_seen source.now)) }
    ensures fits { is_some result
        ≡ fits (heads (scope_of scope.now)) (head (scope_of scope.now)) (test_meant (scope_of scope.now) (test_seen source.now)) }
{
    let test = placed(scope, source)?;
    test_fits(scope, test).then_some(test)
}

/// Why a test doesn't fit.
pub fn misclocked(scope: &Scope, source: &SourceTest) -> Cause {
    match scope.variable(&clock_variable(source).text) {
        Some(variable) => Cause::Clock(member(variable.place as usize, variable.kind)),
        None => Cause::Unsaid,
    }
}

/// `when`
pub fn sampled(
    alloc: Global,
    scope: &Scope,
    place: Place,
    operand: Elaborated,
    source: &SourceTest,
) -> Result<Elaborated, Fault>
    ensures { let s = scope_of scope.now in
        (a : Expression) → Means s operand a
        → IsElaborated s result (where_found (placed_test s (test_seen source.now)) (λ t. when_meant t a)) }
{
    let Elaborated { expr, kind } = operand;
    let Some(found) = test(scope, source) else {
        return Err(Fault::At(clock_variable(source).span.start, misclocked(scope, source)));
    };
    let expr = boxed(alloc, place, Form::When(found, expr))?;
    Ok(Elaborated { expr, kind })
}
