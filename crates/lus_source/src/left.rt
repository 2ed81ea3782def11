//! The left sides of equations: each output and each local of a node, once.

ghost use Rattle.std.specs.Prelude.{◌≡◌, ◌++◌, is_none, OnOk, IfErr, true};
ghost use Rattle.std.specs.List.{list_all};
ghost use Rattle.lus_syntax.specs.View.{node_seen};
ghost use Rattle.lus_source.specs.Tables.{groups};
ghost use Rattle.lus_source.specs.Named.{Distinct, all_new, defined_names, has_left, is_in, left_names, names_in};
ghost use Rattle.lus_source.specs.ScopeView.{Faulty};
ghost use Rattle.lus_source.specs.NameView.{texts};
ghost use Rattle.lus_source.specs.Parts.{LeftsNamed};

use crate::fault::{Cause, Fault, refuse};
use crate::naming::{absent, declare_all};
use crate::nodes::declare_defined;
use indexmap::IndexSet;
use lus_syntax::{Node, Place};

/// Checks that equations define each output and each local of a node once, and nothing else, each at least one of them.
/// Variables that stand twice are a fault too. The table serves for each list of names, and its own names are lost.
pub fn check_lefts(table: &mut IndexSet<String>, node: &Node) -> Result<(), Fault>
    ensures named { OnOk result (LeftsNamed (node_seen node.now)) }
    ensures refused { let f = node_seen node.now in
        IfErr result (Faulty (Distinct (names_in (groups f)) → LeftsNamed f → ⊥)) }
{
    refuse(without_left(node), Cause::Unsaid)?;
    table.clear();
    check_defined(table, node)?;
    table.clear();
    check_whole(table, node)
}

/// Adds the outputs and the locals to a table, which then has each variable on a left side.
fn check_defined(defined: &mut IndexSet<String>, node: &Node) -> Result<(), Fault>
    ensures defined { let names = texts defined.old.keys ++ defined_names (node_seen node.now) in
        OnOk result (list_all (is_in names) (left_names (node_seen node.now)) ≡ true) }
    ensures refused { let f = node_seen node.now in
        let before = texts defined.old.keys in
        IfErr result (Faulty (all_new before (defined_names f) ≡ true → list_all (is_in (before ++ defined_names f)) (left_names f) ≡ true → ⊥)) }
{
    declare_defined(defined, node)?;
    refuse(absent(defined, &node.equations), Cause::Undefinable)
}

/// Adds the left sides to a table, which then has each output and each local.
fn check_whole(left: &mut IndexSet<String>, node: &Node) -> Result<(), Fault>
    ensures distinct { OnOk result (all_new (texts left.old.keys) (left_names (node_seen node.now)) ≡ true) }
    ensures whole { let names = texts left.old.keys ++ left_names (node_seen node.now) in
        OnOk result (list_all (is_in names) (defined_names (node_seen node.now)) ≡ true) }
    ensures refused { let f = node_seen node.now in
        let before = texts left.old.keys in
        IfErr result (Faulty (all_new before (left_names f) ≡ true → list_all (is_in (before ++ left_names f)) (defined_names f) ≡ true → ⊥)) }
{
    declare_all(left, &node.equations)?;
    refuse(
        absent(left, &node.outputs).or(absent(left, &node.locals)),
        Cause::Undefined,
    )
}

/// The name of a node that has an equation with nothing on its left: such an equation comes from no text, and has no place of
/// its own.
fn without_left(node: &Node) -> Option<Place>
    ensures { is_none result ≡ list_all has_left (node_seen node.now).equations }
{
    for equation in &node.equations {
        if equation.left.is_empty() {
            return Some(node.name.span.start);
        }
    }
    None
}
