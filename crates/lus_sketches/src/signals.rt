//! The signals that are drawn of a node.

ghost use Rattle.std.specs.Prelude.{◌≡◌, IfErr, IfOk, map, option_map};
ghost use Rattle.lus_program.specs.Programs.{node_at};
ghost use Rattle.lus_program.specs.View.{program_seen};
ghost use Rattle.lus_traces.specs.Traces.{name_of};
ghost use Rattle.lus_sketches.specs.Paths.{chosen_seen};
ghost use Rattle.lus_sketches.specs.Selections.{named, selection_seen};
ghost use Rattle.lus_sketches.specs.Signals.{AreChosen, IsUnknown, formal_names, pick_seen};

use crate::choices::{Chosen, all, chosen_all};
use crate::labels::label;
use crate::lanes::{lanes_of, signal_kind};
use crate::paths::node_in;
use crate::selection::Selection;
use lus_program::{Node, Program};
use lus_traces::{Side, Signal};
use lus_values::{Memory, Names};
use lus_windows::Pick;
use std::alloc::Global;

/// The signals that are drawn of a node, and where their values are picked of an instant; without picks they are an entry's own.
#[derive(Drop)]
pub(crate) struct Choice {
    pub(crate) signals: Vec<Signal>,
    pub(crate) picks: Option<Vec<Pick>>,
}

/// On which side of a node a variable stands.
fn side_of(node: &Node, variable: u32) -> Side {
    if variable < node.inputs {
        Side::Input
    } else if variable < node.inputs.saturating_add(node.outputs) {
        Side::Output
    } else {
        Side::Local
    }
}

/// The signal that a chosen variable is.
fn signal(
    alloc: Global,
    program: &Program,
    names: &Names,
    chosen: &Chosen,
) -> Result<Signal, Memory>
    ensures { IfOk result (λ s. name_of s ≡ (chosen_seen chosen.now).0) }
{
    let Some(node) = program.nodes.get(chosen.node as usize) else {
        return Err(Memory);
    };
    let Some(variable) = node.variables.get(chosen.pick.variable as usize) else {
        return Err(Memory);
    };
    let path = chosen.path.as_str();
    let (before, side) = match path.rsplit_once('.') {
        Some((steps, _)) => (format!(in alloc; "{steps}.")?, Side::Local),
        None => (String::new(alloc), side_of(node, chosen.pick.variable)),
    };
    Ok(Signal {
        side,
        name: String::from_str(alloc, path)?,
        label: label(alloc, names, node, &before, variable)?,
        kind: signal_kind(variable.kind),
        lanes: lanes_of(alloc, program, variable.kind, path)?,
    })
}

/// The signals that chosen variables are.
fn signals(
    alloc: Global,
    program: &Program,
    names: &Names,
    chosen: &[Chosen],
) -> Result<Vec<Signal>, Memory>
    ensures { IfOk result (λ v. map name_of v.items ≡ map (λ c. c.0) (map chosen_seen chosen.now)) }
{
    let mut signals = Vec::new(alloc);
    for one in chosen {
        signals.push(signal(alloc, program, names, one)?)?;
    }
    Ok(signals)
}

/// How chosen variables are picked.
fn picks(alloc: Global, chosen: Vec<Chosen>) -> Result<Vec<Pick>, Memory>
    ensures { IfOk result (λ v. map pick_seen v.items ≡ map (λ c. c.1) (map chosen_seen chosen.items)) }
{
    let mut picks = Vec::new(alloc);
    for one in chosen {
        picks.push(one.pick)?;
    }
    Ok(picks)
}

/// The signals that a node's inputs and outputs are, in declared order.
pub fn formals(
    alloc: Global,
    program: &Program,
    names: &Names,
    node: u32,
) -> Result<Vec<Signal>, Memory>
    ensures { IfOk result (λ v. map name_of v.items ≡ formal_names (node_at (program_seen program.now) node)) }
{
    let Some(found) = node_in(program, node) else {
        return Err(Memory);
    };
    let every = all(alloc, node, &found.variables)?;
    let mut signals = signals(alloc, program, names, &every)?;
    signals.truncate(found.inputs as usize + found.outputs as usize);
    Ok(signals)
}

/// The signals that names choose; or the place of the first that leads nowhere, from 1.
fn named(
    alloc: Global,
    program: &Program,
    names: &Names,
    node: u32,
    list: &str,
) -> Result<Result<Choice, u64>, Memory>
    ensures { let p = program_seen program.now in let s = named list.now in
        IfOk result (λ r. IfOk r (λ c. AreChosen p node s (map name_of c.signals.items) (option_map (λ ks. ks.items) c.picks))
        × IfErr r (IsUnknown p node s)) }
{
    let chosen = match chosen_all(alloc, program, node, list)? {
        Ok(chosen) => chosen,
        Err(place) => return Ok(Err(place)),
    };
    let signals = signals(alloc, program, names, &chosen)?;
    let picks = picks(alloc, chosen)?;
    Ok(Ok(Choice {
        signals,
        picks: Some(picks),
    }))
}

/// The signals that are selected of a node; or the place of the first name that leads nowhere, from 1.
pub(crate) fn choose(
    alloc: Global,
    program: &Program,
    names: &Names,
    node: u32,
    selection: Selection<'_>,
) -> Result<Result<Choice, u64>, Memory>
    ensures { let p = program_seen program.now in let s = selection_seen selection.entry in
        IfOk result (λ r. IfOk r (λ c. AreChosen p node s (map name_of c.signals.items) (option_map (λ ks. ks.items) c.picks))
        × IfErr r (IsUnknown p node s)) }
{
    match selection {
        Selection::Formals => Ok(Ok(Choice {
            signals: formals(alloc, program, names, node)?,
            picks: None,
        })),
        Selection::Named(list) => named(alloc, program, names, node, list),
    }
}
