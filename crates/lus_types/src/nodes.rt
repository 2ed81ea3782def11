//! Nodes: the tests of their variables and their equations are well typed, and a function keeps no memory.

ghost use Rattle.std.specs.Prelude.{◌≡◌, ◌<◌, ◌≤◌, ◌+◌, ◌++◌, IfOk, OnOk, flat_map, is_none, length, map, option_map};
ghost use Rattle.std.specs.List.{list_all};
ghost use Rattle.lus_syntax.specs.Limits.{most_variables};
ghost use Rattle.lus_syntax.specs.View.{equation_seen, group_seen, node_seen, test_seen, tree_seen};
ghost use Rattle.lus_values.specs.Lists.{Each};
ghost use Rattle.lus_program.specs.View.{equations_from, node_of, variable_of};
ghost use Rattle.lus_source.specs.Tables.{groups, node_at};
ghost use Rattle.lus_source.specs.Sized.{variable_count};
ghost use Rattle.lus_source.specs.Meaning.{equations_meant, node_meant, test_meant};
ghost use Rattle.lus_source.specs.WellTyped.{NodeTyped, is_pure, memory_fits};
ghost use Rattle.lus_source.specs.ScopeView.{Judged, Tested, scope_of};
ghost use Rattle.lus_types.specs.Wholes.{EquationTyped};
ghost use Rattle.lus_types.specs.ByScope.{IsTypedIn, group_fits, maybe_fits, node_in as node_by, variables_in};

use crate::elaboration::{clock_variable, equation, memory, misclocked, test};
use lus_program::{Equation, Node, Test, Variable};
use lus_source::{Cause, Fault, Scope, Tabled, enter, kind_of_name};
use lus_syntax::{
    Equation as SourceEquation, Group, Node as SourceNode, NodeKind, Place, Test as SourceTest,
};
use std::alloc::Global;

/// The test of a group of variables, where it has one.
fn group_test(scope: &Scope, source: &Option<SourceTest>) -> Result<Option<Test>, Fault>
    ensures meant { IfOk result (λ t. t ≡ option_map (test_meant (scope_of scope.now)) (option_map test_seen source.now)) }
    ensures fits { Tested result
        (maybe_fits (scope_of scope.now) (option_map (test_meant (scope_of scope.now)) (option_map test_seen source.now))) }
{
    match source {
        None => Ok(None),
        Some(source) => match test(scope, source) {
            Some(found) => Ok(Some(found)),
            None => Err(Fault::At(clock_variable(source).span.start, misclocked(scope, source))),
        },
    }
}

/// Appends the variables that a group declares.
fn push_group(scope: &Scope, group: &Group, variables: &mut Vec<Variable>) -> Result<(), Fault>
    ensures meant { let more = variables_in (scope_of scope.now) (group_seen group.now) in
        OnOk result (map variable_of variables.new.items ≡ map variable_of variables.old.items ++ more) }
    ensures fits { Tested result (group_fits (scope_of scope.now) (group_seen group.now)) }
{
    let tables = scope.tables;
    let kind = kind_of_name(&tables.names.types, &tables.types, &group.type_name);
    for name in &group.names {
        let test = group_test(scope, &group.test)?;
        variables.push(Variable {
            name: name.text.clone()?,
            place: name.span.start,
            kind,
            test,
        })?;
    }
    Ok(())
}

/// Appends the variables that groups declare.
fn push_groups(scope: &Scope, groups: &[Group], variables: &mut Vec<Variable>) -> Result<(), Fault>
    ensures meant { let more = flat_map (variables_in (scope_of scope.now)) (map group_seen groups.now) in
        OnOk result (map variable_of variables.new.items ≡ map variable_of variables.old.items ++ more) }
    ensures counted { OnOk result (length variables.new.items ≡ length variables.old.items + variable_count (map group_seen groups.now)) }
    ensures fit { Tested result (list_all (group_fits (scope_of scope.now)) (map group_seen groups.now)) }
{
    for group in groups {
        push_group(scope, group, variables)?;
    }
    Ok(())
}

/// The variables of a node, and how many of them are inputs and outputs.
#[derive(Drop)]
struct Variables {
    all: Vec<Variable>,
    inputs: u32,
    outputs: u32,
}

/// The variables of a node.
fn node_variables(alloc: Global, scope: &Scope, source: &SourceNode) -> Result<Variables, Fault>
    requires few { variable_count (groups (node_seen source.now)) ≤ most_variables }
    ensures meant { let meant = flat_map (variables_in (scope_of scope.now)) (groups (node_seen source.now)) in
        IfOk result (λ v. map variable_of v.all.items ≡ meant) }
    ensures inputs { IfOk result (λ v. v.inputs ≡ variable_count (node_seen source.now).inputs) }
    ensures outputs { IfOk result (λ v. v.outputs ≡ variable_count (node_seen source.now).outputs) }
    ensures fit { Tested result (list_all (group_fits (scope_of scope.now)) (groups (node_seen source.now))) }
{
    let mut all = Vec::new(alloc);
    push_groups(scope, &source.inputs, &mut all)?;
    let inputs = all.len();
    push_groups(scope, &source.outputs, &mut all)?;
    let outputs = all.len() - inputs;
    push_groups(scope, &source.locals, &mut all)?;
    Ok(Variables {
        all,
        inputs: inputs as u32,
        outputs: outputs as u32,
    })
}

/// The equations of a node.
fn equations(
    alloc: Global,
    scope: &Scope,
    sources: &[SourceEquation],
) -> Result<Vec<Equation>, Fault>
    ensures meant { IfOk result (λ qs. equations_from 0 qs.items ≡ equations_meant (scope_of scope.now) 0 (map equation_seen sources.now)) }
    ensures typed { Judged result (Each (EquationTyped (scope_of scope.now)) (map equation_seen sources.now)) }
{
    let mut equations = Vec::with_capacity(alloc, sources.len())?;
    for source in sources {
        equations.push(equation(alloc, scope, source)?)?;
    }
    Ok(equations)
}

/// The first place at which equations have a memory.
fn memory_in(scope: &Scope, sources: &[SourceEquation]) -> Option<Place>
    ensures { is_none result ≡ list_all (λ q. is_pure (scope_of scope.now) q.right) (map equation_seen sources.now) }
{
    for source in sources {
        if let Some(place) = memory(scope, &source.right) {
            return Some(place);
        }
    }
    None
}

/// A function keeps no memory.
fn check_memory(scope: &Scope, kind: NodeKind, sources: &[SourceEquation]) -> Result<(), Fault>
    ensures { Tested result (memory_fits kind (scope_of scope.now) (map equation_seen sources.now)) }
{
    match kind {
        NodeKind::Node => Ok(()),
        NodeKind::Function => match memory_in(scope, sources) {
            Some(place) => Err(Fault::At(place, Cause::Remembers)),
            None => Ok(()),
        },
    }
}

/// The node at a place of a source, as the program has it, where it is well typed.
pub fn node(alloc: Global, tabled: &Tabled, place: usize) -> Result<Node, Fault>
    requires { place < length (tree_seen tabled.now).nodes }
    ensures meant { let p = tree_seen tabled.now in IfOk result (λ n. node_of n ≡ node_meant p (node_at p place)) }
    ensures typed { let p = tree_seen tabled.now in Judged result (NodeTyped p (node_at p place)) }
{
    let source = &tabled.loopless.tree().nodes[place];
    let scope = enter(tabled, place);
    node_in(alloc, &scope, source)
}

/// A node by what the names in its text stand for.
fn node_in(alloc: Global, scope: &Scope, source: &SourceNode) -> Result<Node, Fault>
    requires few { variable_count (groups (node_seen source.now)) ≤ most_variables }
    ensures meant { IfOk result (λ n. node_of n ≡ node_by (scope_of scope.now) (node_seen source.now)) }
    ensures typed { Judged result (IsTypedIn (scope_of scope.now) (node_seen source.now)) }
{
    let variables = node_variables(alloc, scope, source)?;
    let equations = equations(alloc, scope, &source.equations)?;
    check_memory(scope, source.kind, &source.equations)?;
    Ok(Node {
        kind: source.kind,
        name: source.name.text.clone()?,
        place: source.name.span.start,
        inputs: variables.inputs,
        outputs: variables.outputs,
        variables: variables.all,
        equations,
    })
}
