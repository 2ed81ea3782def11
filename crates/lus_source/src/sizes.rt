//! How large types are, how deep structures stand in them, and how deep calls go, against the limits of the language.

ghost use Rattle.std.specs.Prelude.{◌≡◌, ◌≤◌, IfErr, IfOk, OnOk, length, map, sum_by, suc, flat_map};
ghost use Rattle.lus_values.specs.Lists.{item, Below};
ghost use Rattle.lus_syntax.specs.declared.refusal.RefusalNumber.TheVariants as numbers;
ghost use Rattle.lus_syntax.specs.Limits.{most_leaves, most_calls_deep, most_nesting};
ghost use Rattle.lus_syntax.specs.View.{tree_seen};
ghost use Rattle.lus_program.specs.View.{declared_of, field_of};
ghost use Rattle.lus_program.specs.Kinds.{nothing_declared};
ghost use Rattle.lus_program.specs.Leaves.{AreTheLeaves, declared_leaves, kind_leaves};
ghost use Rattle.lus_program.specs.Refusals.{RefusesFor};
ghost use Rattle.lus_program.specs.Sound.{declared_uses, structures_in};
ghost use Rattle.lus_source.specs.Meaning.{program_of};
ghost use Rattle.lus_source.specs.ScopeView.{Judged};
ghost use Rattle.lus_source.specs.Sized.{AreWithin, Bounded, leaves_at, call_depth_at, declared_nesting, greatest, nesting_at, IsMeasure};
ghost use Rattle.lus_source.specs.Limits.{IsLimited};
ghost use Rattle.lus_graph.specs.Walks.{uses_of};
ghost use Rattle.lus_graph.specs.Ways.{used, IsOrder};
ghost use Rattle.lus_graph.specs.Along.{IsFilled, within};

use crate::fault::{Cause, Fault, Rejected};
use crate::loopless::Loopless;
use crate::tabled::Tabled;
use crate::uses::node_uses;
use lus_graph::{Rule, along};
use lus_program::{Declared, Field, Kind};
use lus_syntax::{
    MOST_CALLS_DEEP, MOST_LEAVES, MOST_NESTING, Name, Node, RefusalNumber, TypeDeclaration,
};
use std::alloc::Global;

/// Checks leaves and nesting of types and call depth of nodes against the limits, and gives the leaves. A refusal stands at the
/// declared name.
pub fn check_sizes(alloc: Global, tabled: &Tabled) -> Result<Vec<u32>, Rejected>
    ensures leaves { IfOk result (λ leaves. AreTheLeaves (program_of (tree_seen tabled.now)) leaves.items) }
    ensures ok { OnOk result (Bounded (tree_seen tabled.now)) }
    ensures refused { IfErr result (λ e. RefusesFor numbers.Limit (Bounded (tree_seen tabled.now)) e.refusal) }
{
    match sizes(alloc, tabled) {
        Ok(leaves) => Ok(leaves),
        Err(fault) => Err(fault.rejected(RefusalNumber::Limit)),
    }
}

fn sizes(alloc: Global, tabled: &Tabled) -> Result<Vec<u32>, Fault>
    ensures leaves { IfOk result (λ leaves. AreTheLeaves (program_of (tree_seen tabled.now)) leaves.items) }
    ensures bounded { Judged result (Bounded (tree_seen tabled.now)) }
{
    let leaves = check_leaves(alloc, tabled)?;
    check_nesting(alloc, tabled)?;
    check_calls(alloc, tabled.loopless)?;
    Ok(leaves)
}

/// Each type has its leaves, by those of the structures that its declaration names.
#[derive(Drop)]
struct Leaves<'a> {
    types: &'a [Declared],
}

impl<'a> Rule<u32> for Leaves<'a> {
    ghost uses = { λ r. map declared_uses (map declared_of r.types.now) };

    ghost nothing = { λ r. 1 };

    ghost step = { λ r at t. declared_leaves at (item nothing_declared (map declared_of r.types.now) t) };

    ghost fits = { λ r n. n ≤ most_leaves };

    fn find(&self, thing: usize, table: &[u32]) -> Option<u32> {
        leaves_of(&self.types[thing], table)
    }
}

/// Checks the leaves of types, each behind the structures that its declaration names, and gives them.
fn check_leaves(alloc: Global, tabled: &Tabled) -> Result<Vec<u32>, Fault>
    ensures leaves { IfOk result (λ leaves. AreTheLeaves (program_of (tree_seen tabled.now)) leaves.items) }
    ensures within { let types = (program_of (tree_seen tabled.now)).types in
        Judged result (AreWithin (length types) (leaves_at types) most_leaves) }
{
    let types = &tabled.tables.declared;
    let loopless = tabled.loopless;
    measured(
        alloc,
        &Leaves { types },
        loopless.types(),
        &loopless.tree().types,
    )
}

/// The leaves of a type, if they are within the limit, by those of the structures that its declaration names.
fn leaves_of(declared: &Declared, leaves: &[u32]) -> Option<u32>
    ensures { IsLimited most_leaves (declared_leaves (item 1 leaves.now) (declared_of declared.now)) result }
{
    match declared {
        Declared::Alias(kind) => at_most(leaves_of_kind(*kind, leaves) as usize, MOST_LEAVES),
        Declared::Enumeration(_) => Some(1),
        Declared::Structure(fields) => leaves_of_fields(fields, leaves),
    }
}

/// The leaves of all fields, if they are within the limit.
fn leaves_of_fields(fields: &[Field], leaves: &[u32]) -> Option<u32>
    ensures { let each = kind_leaves (item 1 leaves.now) in
        IsLimited most_leaves (sum_by (λ g. each g.kind) (map field_of fields.now)) result }
{
    let mut left = MOST_LEAVES;
    for field in fields {
        left = left.checked_sub(leaves_of_kind(field.kind, leaves) as usize)?;
    }
    Some((MOST_LEAVES - left) as u32)
}

fn leaves_of_kind(kind: Kind, leaves: &[u32]) -> u32
    ensures { result ≡ kind_leaves (item 1 leaves.now) kind }
{
    match kind {
        Kind::Bool => 1,
        Kind::Int => 1,
        Kind::Enum(_) => 1,
        Kind::Struct(place) => leaves.get(place as usize).copied().unwrap_or(1),
    }
}

/// Structures stand in each type as deep as in those that its declaration names, and one deeper in a structure.
#[derive(Drop)]
struct Nesting<'a> {
    types: &'a [Declared],
}

impl<'a> Rule<u32> for Nesting<'a> {
    ghost uses = { λ r. map declared_uses (map declared_of r.types.now) };

    ghost nothing = { λ r. 0 };

    ghost step = { λ r at t. declared_nesting at (item nothing_declared (map declared_of r.types.now) t) };

    ghost fits = { λ r n. n ≤ most_nesting };

    fn find(&self, thing: usize, table: &[u32]) -> Option<u32> {
        at_most(nesting_of(&self.types[thing], table), MOST_NESTING)
    }
}

/// Each node is one level deeper than the deepest of those that it calls.
#[derive(Drop)]
struct Calls<'a> {
    uses: &'a [Vec<u32>],
}

impl<'a> Rule<u32> for Calls<'a> {
    ghost uses = { λ r. uses_of r.uses.now };

    ghost nothing = { λ r. 1 };

    ghost step = { λ r at x. suc (greatest at (used (uses_of r.uses.now) x)) };

    ghost fits = { λ r n. n ≤ most_calls_deep };

    fn find(&self, thing: usize, table: &[u32]) -> Option<u32> {
        let deepest = deepest_of(&self.uses[thing], table);
        at_most(deepest as usize + 1, MOST_CALLS_DEEP)
    }
}

/// Checks how deep structures stand in types, and gives how deep in each.
pub fn check_nesting(alloc: Global, tabled: &Tabled) -> Result<Vec<u32>, Fault>
    ensures { let types = (program_of (tree_seen tabled.now)).types in
        Judged result (AreWithin (length types) (nesting_at types) most_nesting) }
{
    let types = &tabled.tables.declared;
    let loopless = tabled.loopless;
    measured(
        alloc,
        &Nesting { types },
        loopless.types(),
        &loopless.tree().types,
    )
}

/// Checks how deep calls go, and gives how deep those of each node.
pub fn check_calls(alloc: Global, loopless: &Loopless) -> Result<Vec<u32>, Fault>
    ensures { let p = tree_seen loopless.now in Judged result (AreWithin (length p.nodes) (call_depth_at p) most_calls_deep) }
{
    let uses = node_uses(alloc, loopless.named())?;
    measured(
        alloc,
        &Calls { uses: &uses },
        loopless.nodes(),
        &loopless.tree().nodes,
    )
}

/// How deep structures stand in a type, by how deep they do in those that its declaration names.
fn nesting_of(declared: &Declared, depths: &[u32]) -> usize
    ensures { result ≡ declared_nesting (item 0 depths.now) (declared_of declared.now) }
{
    match declared {
        Declared::Alias(kind) => depth_of_kind(*kind, depths) as usize,
        Declared::Enumeration(_) => 0,
        Declared::Structure(fields) => deepest_field(fields, depths) as usize + 1,
    }
}

fn depth_of_kind(kind: Kind, depths: &[u32]) -> u32
    ensures { result ≡ greatest (item 0 depths.now) (structures_in kind) }
{
    match kind {
        Kind::Bool => 0,
        Kind::Int => 0,
        Kind::Enum(_) => 0,
        Kind::Struct(place) => depths.get(place as usize).copied().unwrap_or(0),
    }
}

fn deepest_field(fields: &[Field], depths: &[u32]) -> u32
    ensures { let named = flat_map (λ g. structures_in g.kind) (map field_of fields.now) in
        result ≡ greatest (item 0 depths.now) named }
{
    let mut deepest = 0;
    for field in fields {
        deepest = deepest.max(depth_of_kind(field.kind, depths));
    }
    deepest
}

fn deepest_of(used: &[u32], depths: &[u32]) -> u32
    ensures { result ≡ greatest (item 1 depths.now) used.now }
{
    let mut deepest = 0;
    for place in used {
        deepest = deepest.max(depths.get(*place as usize).copied().unwrap_or(1));
    }
    deepest
}

/// What is declared under a name.
pub trait HasName {
    fn name(&self) -> &Name;
}

impl HasName for TypeDeclaration {
    fn name(&self) -> &Name {
        &self.name
    }
}

impl HasName for Node {
    fn name(&self) -> &Name {
        &self.name
    }
}

/// What a rule gives to each of some things, along an order of them. A fault stands at the name of the first thing for which that
/// doesn't fit.
pub fn measured<R: Rule<u32>, T: HasName>(
    alloc: Global,
    rule: &R,
    order: &[usize],
    things: &[T],
) -> Result<Vec<u32>, Fault>
    requires order { IsOrder (R.uses rule.now) order.now }
    requires measure { IsMeasure (R.uses rule.now) (R.nothing rule.now) (R.step rule.now) (length things.now) }
    ensures found { IfOk result (λ table. IsFilled (R.uses rule.now) (R.nothing rule.now) (R.step rule.now) (R.fits rule.now) order.now table.items) }
    ensures fit { let n = length things.now in
        Judged result (Below n (λ x. R.fits rule.now (within n (R.nothing rule.now) (R.step rule.now) x))) }
{
    let unknown = vec![in alloc; 0u32; things.len()]?;
    match along(rule, order, unknown) {
        Ok(table) => Ok(table),
        Err(thing) => Err(Fault::At(things[thing].name().span.start, Cause::Unsaid)),
    }
}

/// A number, where it is within a limit.
pub fn at_most(number: usize, most: usize) -> Option<u32>
    requires { most ≤ 4294967295 }
    ensures { IsLimited most number result }
{
    if number <= most {
        Some(number as u32)
    } else {
        None
    }
}
