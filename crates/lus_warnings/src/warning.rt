//! Warnings of an accepted source.

use crate::branches::{Division, Divisions, divisions_in, unguarded_division};
use crate::choices::{choice_in, same_branches};
use crate::clocks::{AllFixed, FixedTest, constant_clock, fixed_by, fixed_in, sampling};
use crate::comparisons::{Comparison, comparison_in, constant_comparison};
use crate::exchanges::of_exchange;
use crate::faults::{Fault, constant_fault, fault_in};
use crate::hidden::{Constants, Hidden, constants_of, hidden_by, hidden_constant};
use crate::kind::Kind;
use crate::known::{Scope, Values, values_by_name};
use crate::unused::{Declaration, unused_in};
use lus_diagnostics::{Code, Diagnostic, Site};
use lus_faults::{Exchanged, exchange_in, expressions_in};
use lus_grammar::parse;
use lus_syntax::{Expr, Group, Node, Refusal, Span, Token, Tree, lex};
use std::alloc::{AllocError, Global};

/// A warning with a sentence and a note.
pub(crate) fn warning(
    alloc: Global,
    kind: Kind,
    span: Span,
    sentence: String,
    note: &str,
) -> Result<Diagnostic, AllocError> {
    let code = Code::Warning(kind.as_str());
    let mut told = Diagnostic::new(alloc, code, Site::of(span), sentence);
    told.note = Some(String::from_str(alloc, note)?);
    Ok(told)
}

/// What is said of a declaration that nothing uses: before its name, behind it, and a note.
fn words_of(kind: Kind) -> (&'static str, &'static str, &'static str) {
    match kind {
        Kind::UnusedType => (
            "nothing uses the type ",
            "",
            "Leave it out, or begin its name with `_`.",
        ),
        Kind::UnusedConstant => (
            "nothing uses the constant ",
            "",
            "Leave it out, or begin its name with `_`.",
        ),
        Kind::UnusedNode => (
            "no instance runs the node ",
            ", and no node calls it",
            "Leave it out, or begin its name with `_`.",
        ),
        Kind::UnusedInput => (
            "nothing reads the input ",
            "",
            "Leave it out, or begin its name with `_` where callers have to pass it.",
        ),
        Kind::UnusedLocal => (
            "nothing reads the local variable ",
            "",
            "Leave it out with its equation, or begin its name with `_`.",
        ),
        _ => (
            "nothing reads the memory of ",
            " but its own equation",
            "Leave it out with its equation, or give an output from it.",
        ),
    }
}

/// The warning of a declaration that nothing uses.
fn of_unused(alloc: Global, found: Declaration<'_>) -> Result<Diagnostic, AllocError> {
    let (front, behind, note) = words_of(found.kind);
    let name = found.name.text.as_str();
    let sentence = format!(in alloc; "{front}`{name}`{behind}")?;
    warning(alloc, found.kind, found.name.span, sentence, note)
}

/// What is warned of.
#[derive(Clone, Copy)]
enum Cause<'t> {
    Unused(Declaration<'t>),
    Division(Division<'t>),
    Comparison(Comparison<'t>),
    Clock(FixedTest<'t>),
    Fault(Fault<'t>),
    Hidden(Hidden<'t>),
    Choice(&'t Expr),
    Exchanged(Exchanged<'t>),
}

/// Appends the clocks of some groups that are always the same.
fn push_clocks<'t>(
    fixed: &AllFixed<'t>,
    groups: &'t [Group],
    found: &mut Vec<Cause<'t>>,
) -> Result<(), AllocError> {
    for group in groups {
        if let Some(test) = &group.test
            && let Some(clock) = fixed_by(fixed, test)
        {
            found.push(Cause::Clock(clock))?;
        }
    }
    Ok(())
}

/// Appends what is warned of in an expression, but for divisions.
fn push_expressions<'t>(
    alloc: Global,
    source: &str,
    scope: &Scope<'_, 't>,
    fixed: &AllFixed<'t>,
    expr: &'t Expr,
    found: &mut Vec<Cause<'t>>,
) -> Result<(), AllocError> {
    for inner in &expressions_in(alloc, expr)? {
        if let Some(comparison) = comparison_in(source, scope, inner) {
            found.push(Cause::Comparison(comparison))?;
        }
        if let Some(fault) = fault_in(scope, inner) {
            found.push(Cause::Fault(fault))?;
        }
        if let Some(clock) = sampling(fixed, inner) {
            found.push(Cause::Clock(clock))?;
        }
        if let Some(choice) = choice_in(source, inner) {
            found.push(Cause::Choice(choice))?;
        }
        if let Some(sides) = exchange_in(alloc, scope.node, inner)? {
            found.push(Cause::Exchanged(sides))?;
        }
    }
    Ok(())
}

/// Appends divisions.
fn push_divisions<'t>(
    divisions: &Divisions<'t>,
    found: &mut Vec<Cause<'t>>,
) -> Result<(), AllocError> {
    for division in divisions.values() {
        found.push(Cause::Division(*division))?;
    }
    Ok(())
}

/// Appends the divisions of a node that a test seems to guard.
fn push_guarded<'t>(
    alloc: Global,
    source: &str,
    scope: &Scope<'_, 't>,
    found: &mut Vec<Cause<'t>>,
) -> Result<(), AllocError> {
    let divisions = divisions_in(alloc, source, scope)?;
    push_divisions(&divisions, found)
}

/// Appends what is warned of in what a node computes, by the variables that are always the same.
fn push_by_fixed<'t>(
    alloc: Global,
    source: &str,
    scope: &Scope<'_, 't>,
    fixed: &AllFixed<'t>,
    found: &mut Vec<Cause<'t>>,
) -> Result<(), AllocError> {
    push_clocks(fixed, &scope.node.outputs, found)?;
    push_clocks(fixed, &scope.node.locals, found)?;
    for equation in &scope.node.equations {
        push_expressions(alloc, source, scope, fixed, &equation.right, found)?;
    }
    Ok(())
}

/// Appends what is warned of in what a node computes, but for divisions.
fn push_scope<'t>(
    alloc: Global,
    source: &str,
    scope: &Scope<'_, 't>,
    found: &mut Vec<Cause<'t>>,
) -> Result<(), AllocError> {
    let fixed = fixed_in(alloc, scope)?;
    push_by_fixed(alloc, source, scope, &fixed, found)
}

/// Appends the constants that the variables of some groups hide.
fn push_hidden<'t>(
    alloc: Global,
    constants: &Constants<'t>,
    groups: &'t [Group],
    found: &mut Vec<Cause<'t>>,
) -> Result<(), AllocError> {
    for hidden in &hidden_by(alloc, constants, groups)? {
        found.push(Cause::Hidden(*hidden))?;
    }
    Ok(())
}

/// Appends what is warned of in a node, by the values of constants.
fn push_node<'t>(
    alloc: Global,
    source: &str,
    values: &Values<'t>,
    node: &'t Node,
    found: &mut Vec<Cause<'t>>,
) -> Result<(), AllocError> {
    let scope = Scope::of(alloc, values, node)?;
    push_guarded(alloc, source, &scope, found)?;
    push_scope(alloc, source, &scope, found)
}

/// Appends what is warned of in the nodes of a source.
fn push_nodes<'t>(
    alloc: Global,
    source: &str,
    tree: &'t Tree,
    found: &mut Vec<Cause<'t>>,
) -> Result<(), AllocError> {
    let values = values_by_name(alloc, tree)?;
    let constants = constants_of(alloc, tree)?;
    for node in &tree.nodes {
        push_hidden(alloc, &constants, &node.inputs, found)?;
        push_hidden(alloc, &constants, &node.outputs, found)?;
        push_hidden(alloc, &constants, &node.locals, found)?;
        push_node(alloc, source, &values, node, found)?;
    }
    Ok(())
}

/// What is warned of in a source.
fn causes_in<'t>(
    alloc: Global,
    source: &str,
    tokens: &[Token<'_>],
    tree: &'t Tree,
    run: Option<&[&str]>,
) -> Result<Vec<Cause<'t>>, AllocError> {
    let mut found = Vec::new(alloc);
    for unused in &unused_in(alloc, tokens, tree, run)? {
        found.push(Cause::Unused(*unused))?;
    }
    push_nodes(alloc, source, tree, &mut found)?;
    Ok(found)
}

/// The warning of what is warned of.
fn warning_of(alloc: Global, source: &str, cause: Cause<'_>) -> Result<Diagnostic, AllocError> {
    match cause {
        Cause::Unused(unused) => of_unused(alloc, unused),
        Cause::Division(division) => unguarded_division(alloc, source, division),
        Cause::Comparison(comparison) => constant_comparison(alloc, source, comparison),
        Cause::Clock(clock) => constant_clock(alloc, clock),
        Cause::Fault(fault) => constant_fault(alloc, source, fault),
        Cause::Hidden(hidden) => hidden_constant(alloc, hidden),
        Cause::Choice(choice) => same_branches(alloc, source, choice),
        Cause::Exchanged(sides) => of_exchange(alloc, source, sides),
    }
}

/// The warnings of a source, in the order of its text.
fn warnings_by(
    alloc: Global,
    source: &str,
    causes: &[Cause<'_>],
) -> Result<Vec<Diagnostic>, AllocError> {
    let mut warnings = Vec::new(alloc);
    for cause in causes {
        warnings.push(warning_of(alloc, source, *cause)?)?;
    }
    warnings.sort_by_key(|warning| warning.span(source).start.byte)?;
    Ok(warnings)
}

/// The warnings of a source that was read.
fn warnings_in(
    alloc: Global,
    source: &str,
    tokens: &[Token<'_>],
    tree: &Tree,
    run: Option<&[&str]>,
) -> Result<Vec<Diagnostic>, AllocError> {
    let causes = causes_in(alloc, source, tokens, tree, run)?;
    warnings_by(alloc, source, &causes)
}

/// What is warned of in an accepted source, in the order of the text. `run` has the names of the nodes that instances run, where these
/// are known. A source that is not accepted may be refused.
pub fn warnings_of(
    alloc: Global,
    source: &str,
    run: Option<&[&str]>,
) -> Result<Vec<Diagnostic>, Refusal> {
    let tokens = lex(alloc, source)?;
    let tree = parse(alloc, &tokens)?;
    Ok(warnings_in(alloc, source, &tokens, &tree, run)?)
}
