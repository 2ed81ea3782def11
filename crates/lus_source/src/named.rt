//! Sources whose names are right.

ghost use Rattle.std.specs.Prelude.{◌≡◌, ◌<◌, [], IfErr, IfOk, OnOk, length, map};
ghost use Rattle.lus_syntax.specs.declared.refusal.RefusalNumber.TheVariants as numbers;
ghost use Rattle.lus_syntax.specs.View.{tree_seen};
ghost use Rattle.lus_program.specs.Refusals.{RefusesFor};
ghost use Rattle.lus_source.specs.Loopless.{node_names, type_names};
ghost use Rattle.lus_source.specs.Named.{Named as IsNamed, known, names_in};
ghost use Rattle.lus_source.specs.Parts.{UsesKnown};
ghost use Rattle.lus_source.specs.ScopeView.{Judged};
ghost use Rattle.lus_source.specs.Sized.{Counted as IsCounted};
ghost use Rattle.lus_source.specs.NameView.{known_seen, spaces_seen};
ghost use Rattle.lus_source.specs.Tables.{groups, node_at};

use crate::counts::Counted;
use crate::declarations::{check_definitions, declared};
use crate::fault::{Cause, Fault, Rejected, refuse};
use crate::names::Names;
use crate::nodes::check_nodes;
use crate::places::{Places, Spaces};
use crate::using::first_unknown;
use lus_syntax::{RefusalNumber, Tree};
use std::alloc::Global;
use std::marker::Model;

/// A counted source whose names are declared once, and used as what they are declared, with its names and those of each node's
/// variables. Contracts see it as its tree.
pub struct Named {
    counted: Counted,
    names: Spaces,
    variables: Vec<Places>,
}

impl Model for Named {
    ghost use Rattle.std.specs.Coded.{codes};
    ghost use Rattle.lus_syntax.specs.contracts.tree.Expr as source_expr;
    ghost use Rattle.lus_syntax.specs.declared.tree.Tree.{Tree as StoredTree};
    ghost use Rattle.lus_syntax.specs.View.{tree_seen};
    ghost use Rattle.lus_source.specs.Sources.{HasNames};

    ghost Value = { StoredTree };

    ghost coded = { Prim.hlevel (codes, source_expr.the_row.coded) };

    ghost view = { λ n. n.counted };

    ghost invariant = { λ n. HasNames (tree_seen n.counted) n.names n.variables.items };
}

impl Named {
    /// The source.
    pub fn tree(&self) -> &Tree
        ensures same { result.now ≡ self.now }
        ensures counted { IsCounted (tree_seen result.now) }
        ensures named { IsNamed (tree_seen result.now) }
    {
        self.counted.tree()
    }

    /// The source, by itself.
    pub fn into_tree(self) -> Tree
        ensures { result ≡ self }
    {
        let Named {
            counted,
            names: _,
            variables: _,
        } = self;
        counted.into_tree()
    }

    /// Its names.
    pub fn names(&self) -> &Spaces
        ensures { spaces_seen result.now ≡ known (tree_seen self.now) [] }
    {
        &self.names
    }

    /// The places of its types.
    pub fn types(&self) -> &Places
        ensures { result.now ≡ type_names (tree_seen self.now) }
    {
        &self.names.types
    }

    /// The places of its nodes.
    pub fn nodes(&self) -> &Places
        ensures { result.now ≡ node_names (tree_seen self.now) }
    {
        &self.names.nodes
    }

    /// The places of the variables of the node at a place.
    pub fn variables(&self, node: usize) -> &Places
        requires { node < length (tree_seen self.now).nodes }
        ensures { result.now ≡ names_in (groups (node_at (tree_seen self.now) node)) }
    {
        &self.variables[node]
    }
}

// By hand, so that other functions call it: what a derive drops is proved again in each of them.
impl Drop for Named {
    fn drop(self) {
        let Named {
            counted: _,
            names: _,
            variables: _,
        } = self;
    }
}

/// Checks the names of a source. A fault stands at the name: a doubled one where it is declared again, an unknown one where it
/// is used, an output or a local without an equation where it is declared, an equation with nothing on its left at its node's
/// name.
pub fn check_names(alloc: Global, counted: Counted) -> Result<Named, Rejected>
    ensures same { IfOk result (λ named. named ≡ counted) }
    ensures ok { OnOk result (IsNamed (tree_seen counted)) }
    ensures refused { IfErr result (λ e. RefusesFor numbers.Name (IsNamed (tree_seen counted)) e.refusal) }
{
    match with_names(alloc, counted) {
        Ok(named) => Ok(named),
        Err(fault) => Err(fault.rejected(RefusalNumber::Name)),
    }
}

/// The source with its names.
fn with_names(alloc: Global, counted: Counted) -> Result<Named, Fault>
    ensures same { IfOk result (λ named. named ≡ counted) }
    ensures named { Judged result (IsNamed (tree_seen counted)) }
{
    let mut names = declared(alloc, counted.tree())?;
    let variables = check_uses(alloc, &mut names, &counted)?;
    let names = names.into_spaces();
    Ok(Named {
        counted,
        names,
        variables,
    })
}

/// Checks that what the declarations of a source use is among these names, and gives the names of each node's variables.
fn check_uses(alloc: Global, names: &mut Names, counted: &Counted) -> Result<Vec<Places>, Fault>
    requires empty { (known_seen names.old).variables ≡ [] }
    ensures known { Judged result (UsesKnown (known_seen names.old) (tree_seen counted.now)) }
    ensures kept { OnOk result (known_seen names.new ≡ known_seen names.old) }
    ensures variables { IfOk result (λ all. all.items ≡ map (λ f. names_in (groups f)) (tree_seen counted.now).nodes) }
{
    let tree = counted.tree();
    check_definitions(alloc, names, &tree.types)?;
    refuse(first_unknown(names, &tree.constants), Cause::Unknown)?;
    check_nodes(alloc, names, &tree.nodes)
}
