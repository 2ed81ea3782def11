//! Equations: what a whole right side gives, and what the left side takes.

ghost use Rattle.std.specs.Prelude.{◌≡◌, IfOk, Some, MatchResult, map};
ghost use Rattle.std.specs.Bool.{Decides};
ghost use Rattle.lus_syntax.specs.View.{expression_seen, equation_seen, name_seen, names_seen};
ghost use Rattle.lus_program.specs.View.{expression_of};
ghost use Rattle.lus_program.specs.Resolved.{kind_of_variable};
ghost use Rattle.lus_source.specs.Heads.{head, heads};
ghost use Rattle.lus_source.specs.Meaning.{meant, targets_meant, variable_place};
ghost use Rattle.lus_source.specs.ScopeView.{Judged, scope_of};
ghost use Rattle.lus_types.specs.Wholes.{EquationTyped, GivesTo, Take};

use crate::elaboration::expressions::{elaborate, whole_call};
use crate::elaboration::forms::place_of;
use crate::elaboration::kinds::{member, same};
use lus_program::{Equation, Expr, Kind};
use lus_source::{Cause, Fault, Scope, Whole};
use lus_syntax::{Equation as SourceEquation, Expr as Source, Name, Place};
use std::alloc::{AllocError, Global};

/// Whether a variable takes values of this type.
fn takes(scope: &Scope, target: u32, kind: Kind) -> bool
    ensures { let s = scope_of scope.now in Decides result (Some kind ≡ kind_of_variable (heads s) (head s) target) }
{
    match scope.variable_kind(target) {
        Some(found) => same(found, kind),
        None => false,
    }
}

/// Whether variables take values of these types.
fn take(scope: &Scope, targets: &[u32], kinds: &[Kind]) -> bool
    ensures { Decides result (Take (scope_of scope.now) targets.now kinds.now) }
{
    match targets {
        [] => kinds.is_empty(),
        [target, targets @ ..] => match kinds {
            [] => false,
            [kind, kinds @ ..] => takes(scope, *target, *kind) && take(scope, targets, kinds),
        },
    }
}

/// Why variables don't take values of these types.
fn mistaken(scope: &Scope, targets: &[u32], kinds: &[Kind]) -> Cause {
    if targets.len() != kinds.len() {
        return Cause::Count(Whole::Equation, targets.len(), kinds.len(), None);
    }
    for (place, target) in targets.iter().enumerate() {
        if let Some(wanted) = scope.variable_kind(*target)
            && let Some(found) = kinds.get(place)
            && !same(wanted, *found)
        {
            return Cause::Clash(Whole::Equation, member(place, wanted), *found);
        }
    }
    Cause::Unsaid
}

/// A right side that gives what these variables have; a call there may have several outputs. The fault is at `place`
/// where it gives something else.
pub fn right_side(
    alloc: Global,
    scope: &Scope,
    place: Place,
    targets: &[u32],
    source: &Source,
) -> Result<Box<Expr>, Fault>
    ensures { let s = scope_of scope.now in
        GivesTo s result targets.now (meant s (expression_seen source.now)) }
{
    match source {
        Source::Parentheses(span, inner) => {
            let mut inner = right_side(alloc, scope, place, targets, inner)?;
            inner.place = span.start;
            Ok(inner)
        }
        Source::Call(name, arguments) => {
            let (expr, outputs) = whole_call(alloc, scope, name, arguments)?;
            if take(scope, targets, outputs) {
                Ok(expr)
            } else {
                Err(Fault::At(place, mistaken(scope, targets, outputs)))
            }
        }
        Source::Number(_, _)
        | Source::Truth(_, _)
        | Source::Name(_)
        | Source::Structure(_, _)
        | Source::Merge(_, _, _)
        | Source::Variadic(_, _, _)
        | Source::Field(_, _)
        | Source::When(_, _)
        | Source::Unary(_, _, _)
        | Source::Binary(_, _, _)
        | Source::If(_, _, _, _) => {
            let whole = elaborate(alloc, scope, source)?;
            if take(scope, targets, &[whole.kind]) {
                Ok(whole.expr)
            } else {
                Err(Fault::At(place, mistaken(scope, targets, &[whole.kind])))
            }
        }
    }
}

fn target(scope: &Scope, name: &Name) -> u32
    ensures { result ≡ variable_place (scope_of scope.now) (name_seen name.now).text }
{
    match scope.variable(&name.text) {
        Some(variable) => variable.place,
        None => 0,
    }
}

/// The variables on a left side, and where they stand.
fn targets(
    alloc: Global,
    scope: &Scope,
    names: &[Name],
) -> Result<(Vec<u32>, Vec<Place>), AllocError>
    ensures { IfOk result (λ ts. ts.0.items ≡ targets_meant (scope_of scope.now) (names_seen names.now)) }
{
    let mut targets = Vec::with_capacity(alloc, names.len())?;
    let mut places = Vec::with_capacity(alloc, names.len())?;
    for name in names {
        targets.push(target(scope, name))?;
        places.push(name.span.start)?;
    }
    Ok((targets, places))
}

/// An equation of the program: the right side gives what the left side has.
pub fn equation(alloc: Global, scope: &Scope, source: &SourceEquation) -> Result<Equation, Fault>
    ensures typed { Judged result (EquationTyped (scope_of scope.now) (equation_seen source.now)) }
    ensures targets { IfOk result (λ q. q.targets.items ≡ targets_meant (scope_of scope.now) (names_seen source.now.left.items)) }
    ensures meant { IfOk result (λ q. expression_of q.right ≡ meant (scope_of scope.now) (expression_seen source.now.right)) }
{
    let (targets, places) = targets(alloc, scope, &source.left)?;
    let place = place_of(&source.right);
    let right = right_side(alloc, scope, place, &targets, &source.right)?;
    Ok(Equation {
        targets,
        places,
        right: Box::into_inner(right),
    })
}

/// Of each of some equations, whether its types disagree.
pub fn misfits(
    alloc: Global,
    scope: &Scope,
    sources: &[SourceEquation],
) -> Result<Vec<bool>, AllocError> {
    let mut misfits = Vec::new(alloc);
    for source in sources {
        match equation(alloc, scope, source) {
            Ok(_) => misfits.push(false)?,
            Err(Fault::At(_, _)) => misfits.push(true)?,
            Err(Fault::Memory) => return Err(AllocError),
        }
    }
    Ok(misfits)
}
