//! Sources in which nothing leads back to itself, and the fault where something does.

ghost use Rattle.std.specs.Prelude.{◌≡◌, IfErr, IfOk, OnOk};
ghost use Rattle.lus_graph.specs.Ways.{IsOrder, HasNoWayBack};
ghost use Rattle.lus_syntax.specs.declared.refusal.RefusalNumber.TheVariants as numbers;
ghost use Rattle.lus_syntax.specs.View.{tree_seen};
ghost use Rattle.lus_program.specs.Refusals.{RefusesFor};
ghost use Rattle.lus_program.specs.Sound.{HaveOrder};
ghost use Rattle.lus_source.specs.Loopless.{Loopless as IsLoopless, node_uses as calls_of_nodes, type_names as names_of_types, type_uses as uses_of_types};
ghost use Rattle.lus_source.specs.Named.{Named as IsNamed};
ghost use Rattle.lus_source.specs.ScopeView.{Judged, Faulty};
ghost use Rattle.lus_source.specs.Sized.{Counted as IsCounted};

use crate::declarations::declared;
use crate::fault::{Cause, Fault, Rejected};
use crate::named::Named;
use crate::nodes::declare_variables;
use crate::places::Places;
use crate::uses::{node_uses, type_uses};
use crate::using::first_unknown;
use lus_graph::{GraphError, order_of};
use lus_syntax::{Node, Place, RefusalNumber, Tree};
use std::alloc::Global;
use std::marker::Model;

/// A source of right names in which nothing leads back to itself, with its types and its nodes in orders in which what one
/// uses stands before it. Contracts see it as its tree.
pub struct Loopless {
    named: Named,
    types: Vec<usize>,
    nodes: Vec<usize>,
}

impl Model for Loopless {
    ghost use Rattle.std.specs.Coded.{codes};
    ghost use Rattle.lus_syntax.specs.contracts.tree.Expr as source_expr;
    ghost use Rattle.lus_syntax.specs.declared.tree.Tree.{Tree as StoredTree};
    ghost use Rattle.lus_syntax.specs.View.{tree_seen};
    ghost use Rattle.lus_source.specs.Sources.{AreOrders};

    ghost Value = { StoredTree };

    ghost coded = { Prim.hlevel (codes, source_expr.the_row.coded) };

    ghost view = { λ l. l.named };

    ghost invariant = { λ l. AreOrders (tree_seen l.named) l.types.items l.nodes.items };
}

impl Loopless {
    /// The source of right names.
    pub fn named(&self) -> &Named
        ensures same { result.now ≡ self.now }
        ensures loopless { IsLoopless (tree_seen result.now) }
    {
        &self.named
    }

    /// The source.
    pub fn tree(&self) -> &Tree
        ensures same { result.now ≡ self.now }
        ensures counted { IsCounted (tree_seen result.now) }
        ensures named { IsNamed (tree_seen result.now) }
    {
        self.named.tree()
    }

    /// The places of the names of its types.
    pub fn type_names(&self) -> &Places
        ensures { result.now ≡ names_of_types (tree_seen self.now) }
    {
        self.named.types()
    }

    /// The places of its types, each behind those of the types that it names.
    pub fn types(&self) -> &[usize]
        ensures { IsOrder (uses_of_types (tree_seen self.now)) result.now }
    {
        &self.types
    }

    /// The places of its nodes, each behind those of the nodes that it calls.
    pub fn nodes(&self) -> &[usize]
        ensures { IsOrder (calls_of_nodes (tree_seen self.now)) result.now }
    {
        &self.nodes
    }

    /// The source, and the places of its nodes, each behind those of the nodes that it calls.
    pub fn into_parts(self) -> (Tree, Vec<usize>)
        ensures tree { result.0 ≡ self }
        ensures nodes { IsOrder (calls_of_nodes (tree_seen self)) result.1.items }
        ensures types { HaveOrder (uses_of_types (tree_seen self)) }
    {
        let Loopless {
            named,
            types: _,
            nodes,
        } = self;
        (named.into_tree(), nodes)
    }
}

// By hand, so that other functions call it: what a derive drops is proved again in each of them.
impl Drop for Loopless {
    fn drop(self) {
        let Loopless {
            named: _,
            types: _,
            nodes: _,
        } = self;
    }
}

/// Checks that nothing leads back to itself; a refusal stands at a type's name, or at a call's.
pub fn check_recursion(alloc: Global, named: Named) -> Result<Loopless, Rejected>
    ensures same { IfOk result (λ loopless. loopless ≡ named) }
    ensures ok { OnOk result (IsLoopless (tree_seen named)) }
    ensures refused { IfErr result (λ e. RefusesFor numbers.Recursion (IsLoopless (tree_seen named)) e.refusal) }
{
    match ordered(alloc, named) {
        Ok(loopless) => Ok(loopless),
        Err(fault) => Err(fault.rejected(RefusalNumber::Recursion)),
    }
}

/// The source with its orders.
fn ordered(alloc: Global, named: Named) -> Result<Loopless, Fault>
    ensures same { IfOk result (λ loopless. loopless ≡ named) }
    ensures loopless { Judged result (IsLoopless (tree_seen named)) }
{
    let types = order_of_types(alloc, &named)?;
    let nodes = order_of_nodes(alloc, &named)?;
    Ok(Loopless {
        named,
        types,
        nodes,
    })
}

/// The places of types, each behind those of the types that it names. A fault stands at the name of a type that leads back to
/// itself.
pub fn order_of_types(alloc: Global, named: &Named) -> Result<Vec<usize>, Fault>
    ensures order { IfOk result (λ order. IsOrder (uses_of_types (tree_seen named.now)) order.items) }
    ensures refused { IfErr result (Faulty (HasNoWayBack (uses_of_types (tree_seen named.now)) → ⊥)) }
{
    let uses = type_uses(alloc, named)?;
    match order_of(alloc, &uses) {
        Ok(order) => Ok(order),
        Err(GraphError::Memory) => Err(Fault::Memory),
        Err(GraphError::Cycle(cycle)) => {
            let place = place_of_type(named.tree(), &cycle);
            Err(Fault::At(place, Cause::Unsaid))
        },
    }
}

/// The places of nodes, each behind those of the nodes that it calls. A fault stands at the name of a call that leads back to
/// the node in which it stands.
pub fn order_of_nodes(alloc: Global, named: &Named) -> Result<Vec<usize>, Fault>
    ensures order { IfOk result (λ order. IsOrder (calls_of_nodes (tree_seen named.now)) order.items) }
    ensures refused { IfErr result (Faulty (HasNoWayBack (calls_of_nodes (tree_seen named.now)) → ⊥)) }
{
    let uses = node_uses(alloc, named)?;
    match order_of(alloc, &uses) {
        Ok(order) => Ok(order),
        Err(GraphError::Memory) => Err(Fault::Memory),
        Err(GraphError::Cycle(cycle)) => Err(fault_at_call(alloc, named.tree(), &cycle)),
    }
}

const FIRST_PLACE: Place = Place {
    byte: 0,
    line: 1,
    column: 1,
};

/// Where the first type of a cycle is declared.
fn place_of_type(tree: &Tree, cycle: &[usize]) -> Place {
    let Some(first) = cycle.first() else {
        return FIRST_PLACE;
    };
    match tree.types.get(*first) {
        Some(declaration) => declaration.name.span.start,
        None => FIRST_PLACE,
    }
}

/// The fault at the call by which the first node of a cycle leads to the next.
fn fault_at_call(alloc: Global, tree: &Tree, cycle: &[usize]) -> Fault {
    let Some(first) = cycle.first() else {
        return Fault::At(FIRST_PLACE, Cause::Unsaid);
    };
    let next = cycle.get(1).unwrap_or(first);
    let Some(caller) = tree.nodes.get(*first) else {
        return Fault::At(FIRST_PLACE, Cause::Unsaid);
    };
    let Some(called) = tree.nodes.get(*next) else {
        return Fault::At(FIRST_PLACE, Cause::Unsaid);
    };
    match place_of_call(alloc, tree, caller, &called.name.text) {
        Ok(place) => Fault::At(place, Cause::Unsaid),
        Err(fault) => fault,
    }
}

/// Where a node calls the node of this name: there stands the first unknown name, once this one is none of the names.
fn place_of_call(alloc: Global, tree: &Tree, caller: &Node, called: &str) -> Result<Place, Fault> {
    let mut names = declared(alloc, tree)?;
    names.nodes.swap_remove(called);
    declare_variables(&mut names.variables, caller)?;
    match first_unknown(&names, &caller.equations) {
        Some(place) => Ok(place),
        None => Ok(FIRST_PLACE),
    }
}
