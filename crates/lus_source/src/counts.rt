//! Sources within the limits of counts.

ghost use Rattle.std.specs.Prelude.{◌≡◌, ◌≤◌, IfErr, IfOk, OnOk, OnErr, length, map, sum_by};
ghost use Rattle.lus_syntax.specs.View.{tree_seen, definition_seen, node_seen};
ghost use Rattle.lus_source.specs.Sized.{Counted as IsCounted, DefinitionCounted, variable_count};
ghost use Rattle.std.specs.Bool.{Decides};
ghost use Rattle.lus_syntax.specs.declared.refusal.RefusalNumber.TheVariants as numbers;
ghost use Rattle.lus_syntax.specs.Limits.{most_variables};
ghost use Rattle.lus_program.specs.Refusals.{RefusesFor};
ghost use Rattle.lus_source.specs.Tables.{groups};
ghost use Rattle.lus_source.specs.Limits.{AreLeft};

use crate::fault::{Cause, Fault, Rejected};
use crate::naming::Naming;
use lus_syntax::{
    Definition, MOST_CONSTRUCTORS, MOST_DECLARATIONS, MOST_FIELDS, MOST_VARIABLES, Node, Place,
    RefusalNumber, Tree,
};
use std::marker::Model;

/// A source that declares no more than the limits allow. Contracts see it as its tree.
pub struct Counted {
    tree: Tree,
}

impl Model for Counted {
    ghost use Rattle.std.specs.Coded.{codes};
    ghost use Rattle.lus_syntax.specs.contracts.tree.Expr as source_expr;
    ghost use Rattle.lus_syntax.specs.declared.tree.Tree.{Tree as StoredTree};
    ghost use Rattle.lus_syntax.specs.View.{tree_seen};
    ghost use Rattle.lus_source.specs.Sized.{Counted as IsCounted};

    ghost Value = { StoredTree };

    ghost coded = { Prim.hlevel (codes, source_expr.the_row.coded) };

    ghost view = { λ c. c.tree };

    ghost invariant = { λ c. IsCounted (tree_seen c.tree) };
}

impl Counted {
    /// A source that keeps the limits.
    pub fn new(tree: Tree) -> Counted
        requires { IsCounted (tree_seen tree) }
        ensures { result ≡ tree }
    {
        Counted { tree }
    }

    /// The source.
    pub fn tree(&self) -> &Tree
        ensures same { result.now ≡ self.now }
        ensures counted { IsCounted (tree_seen result.now) }
    {
        &self.tree
    }

    /// The source, by itself.
    pub fn into_tree(self) -> Tree
        ensures { result ≡ self }
    {
        let Counted { tree } = self;
        tree
    }
}

// By hand, so that crates above call it: what a derive drops is proved again in each of them.
impl Drop for Counted {
    fn drop(self) {
        let Counted { tree: _ } = self;
    }
}

/// Checks that a source declares no more than the limits admit. The place is that of a name past a limit, or of the type or
/// the node that has too much.
pub fn check_counts(tree: Tree) -> Result<Counted, Rejected>
    ensures same { IfOk result (λ counted. counted ≡ tree) }
    ensures ok { OnOk result (IsCounted (tree_seen tree)) }
    ensures refused { IfErr result (λ e. RefusesFor numbers.Limit (IsCounted (tree_seen tree)) e.refusal) }
{
    match counts_fit(&tree) {
        Ok(()) => Ok(Counted::new(tree)),
        Err(place) => Err(Fault::At(place, Cause::Unsaid).rejected(RefusalNumber::Limit)),
    }
}

/// Whether a source declares no more than the limits admit.
fn counts_fit(tree: &Tree) -> Result<(), Place>
    ensures ok { OnOk result (IsCounted (tree_seen tree.now)) }
    ensures err { OnErr result (IsCounted (tree_seen tree.now) → ⊥) }
{
    if let Some(past) = tree.types.get(MOST_DECLARATIONS) {
        return Err(past.name.span.start);
    }
    if let Some(past) = tree.constants.get(MOST_DECLARATIONS) {
        return Err(past.name.span.start);
    }
    if let Some(past) = tree.nodes.get(MOST_DECLARATIONS) {
        return Err(past.name.span.start);
    }
    for declaration in &tree.types {
        if !is_counted(&declaration.definition) {
            return Err(declaration.name.span.start);
        }
    }
    for node in &tree.nodes {
        if !has_few_variables(node) {
            return Err(node.name.span.start);
        }
    }
    Ok(())
}

/// Whether a type has no more constructors or fields than the limits admit, and a structure has a field.
#[tactic(auto, using(crate::proofs::Counting::fields_counted))]
fn is_counted(definition: &Definition) -> bool
    ensures { Decides result (DefinitionCounted (definition_seen definition.now)) }
{
    match definition {
        Definition::Alias(_) => true,
        Definition::Enumeration(constructors) => constructors.len() <= MOST_CONSTRUCTORS,
        Definition::Structure(fields) => match names_left(fields, MOST_FIELDS) {
            Some(left) => left < MOST_FIELDS,
            None => false,
        },
    }
}

/// Whether a node has no more variables than the limit admits.
fn has_few_variables(node: &Node) -> bool
    ensures { Decides result (variable_count (groups (node_seen node.now)) ≤ most_variables) }
{
    let Some(left) = names_left(&node.inputs, MOST_VARIABLES) else {
        return false;
    };
    let Some(left) = names_left(&node.outputs, left) else {
        return false;
    };
    names_left(&node.locals, left).is_some()
}

/// How many of so many more names there may be behind those of these.
fn names_left<Sort, T: Naming<Sort>>(things: &[T], most: usize) -> Option<usize>
    ensures { AreLeft most (sum_by length (map T.named things.now)) result }
{
    let mut left = most;
    for thing in things {
        left = left.checked_sub(thing.names().len())?;
    }
    Some(left)
}
