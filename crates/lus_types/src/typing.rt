//! The checks of a source's declarations, one behind another.

ghost use Rattle.std.specs.Prelude.{◌≡◌, ◌≢◌, IfErr, IfOk, OnOk};
ghost use Rattle.lus_syntax.specs.declared.refusal.RefusalNumber.TheVariants as numbers;
ghost use Rattle.lus_syntax.specs.View.{tree_seen};
ghost use Rattle.lus_program.specs.View.{program_seen};
ghost use Rattle.lus_source.specs.Meaning.{program_of};
ghost use Rattle.lus_source.specs.Refusals.{FirstFails, WellFormed};

use crate::passes::types;
use crate::typed::Typed;
use lus_program::Sound;
use lus_source::{Rejected, check_counts, check_names, check_recursion, check_sizes, tables};
use lus_syntax::{Refusal, Tree};
use std::alloc::Global;

/// Checks a source against the limits of its declarations, then its names, recursion, the limits of sizes, and types, each
/// over the whole source; gives it back with the program that it means. Refuses by the number of the first of these that
/// fails (E10, E4, E9, E10, E5) at a place of a fault of it, or out of memory (E11).
pub fn check_types(alloc: Global, tree: Tree) -> Result<Typed, Refusal>
    ensures ok { OnOk result (WellFormed (tree_seen tree)) }
    ensures same { IfOk result (λ typed. typed.tree ≡ tree) }
    ensures means { IfOk result (λ typed. program_seen typed.program ≡ program_of (tree_seen tree)) }
    ensures refused { IfErr result (λ e. e.number ≢ numbers.Memory → FirstFails (tree_seen tree) e.number) }
{
    match judge_types(alloc, tree) {
        Ok(typed) => Ok(typed),
        Err(rejected) => Err(rejected.refusal),
    }
}

/// As `check_types`; says of a refusal why.
pub fn judge_types(alloc: Global, tree: Tree) -> Result<Typed, Rejected>
    ensures ok { OnOk result (WellFormed (tree_seen tree)) }
    ensures same { IfOk result (λ typed. typed.tree ≡ tree) }
    ensures means { IfOk result (λ typed. program_seen typed.program ≡ program_of (tree_seen tree)) }
    ensures refused { IfErr result (λ e. e.refusal.number ≢ numbers.Memory → FirstFails (tree_seen tree) e.refusal.number) }
{
    let counted = check_counts(tree)?;
    let named = check_names(alloc, counted)?;
    let loopless = check_recursion(alloc, named)?;
    let tabled = tables(alloc, &loopless)?;
    let leaves = check_sizes(alloc, &tabled)?;
    let program = types(alloc, tabled)?;
    let (tree, nodes) = loopless.into_parts();
    Ok(Typed::new(tree, Sound::new(program, nodes, leaves)))
}
