//! What is kept before the first instant.

ghost use Rattle.std.specs.Prelude.{◌≡◌, ◌<◌, [], IfOk, IsTrue, MatchOption, false, length, map};
ghost use Rattle.lus_values.specs.Lists.{Each};
ghost use Rattle.lus_program.specs.Resolved.{Resolved};
ghost use Rattle.lus_program.specs.View.{expression_of, program_seen};
ghost use Rattle.lus_streams.specs.Equations.{sites_in};
ghost use Rattle.lus_parts.specs.Parts.{part_of};
ghost use Rattle.lus_reference.specs.Given.{callee as callee_in};
ghost use Rattle.lus_worlds.specs.Beginning.{Begins, IsWithin};
ghost use Rattle.lus_worlds.specs.Moments.{EachKeeps, KeepsBehind};

use crate::moment::Moment;
use lus_parts::{Part, parts_of};
use lus_program::Program;
use lus_reference::callee;
use lus_values::{Memory, Row};
use std::alloc::Global;

/// What is kept of a node before its first instant. In a resolved program there is some of each of its nodes.
pub fn start(alloc: Global, program: &Program, number: u32) -> Result<Option<Moment>, Memory>
    ensures { let p = program_seen program.now in
        IfOk result (λ o. MatchOption o (Resolved p → number < length p.nodes → ⊥) (λ m. KeepsBehind p m number [])) }
{
    start_within(alloc, program, program.nodes.len(), number)
}

/// What is kept of a node before its first instant, if the program has it and its calls are no deeper than this.
#[cycle(start)]
fn start_within(
    alloc: Global,
    program: &Program,
    depth: usize,
    number: u32,
) -> Result<Option<Moment>, Memory>
    ensures { let p = program_seen program.now in
        IfOk result (λ o. MatchOption o (IsWithin p depth number → ⊥) (λ m. KeepsBehind p m number [])) }
{
    if depth == 0 {
        return Ok(None);
    }
    match program.nodes.get(number as usize) {
        Some(node) => {
            let parts = parts_of(alloc, program, node)?;
            match start_calls(alloc, program, depth - 1, &parts)? {
                Some(called) => Ok(Some(Moment {
                    present: false,
                    row: Row::new(Vec::new(alloc)),
                    kept: Row::new(Vec::new(alloc)),
                    fault: None,
                    called,
                })),
                None => Ok(None),
            }
        }
        None => Ok(None),
    }
}

/// What is kept before the first instant of the nodes that these parts call.
#[cycle(start)]
fn start_calls(
    alloc: Global,
    program: &Program,
    depth: usize,
    parts: &[Part<'_>],
) -> Result<Option<Vec<Moment>>, Memory>
    ensures { let p = program_seen program.now in
        let calls = sites_in p (map part_of parts.now) in
        IfOk result (λ o. MatchOption o (Each (λ s. IsWithin p depth s.node) calls → ⊥) (λ ms. EachKeeps p ms.items calls [])) }
{
    let mut called = Vec::new(alloc);
    for part in parts {
        let begun = start_call(alloc, program, depth, part, &mut called)?;
        if !begun {
            return Ok(None);
        }
    }
    Ok(Some(called))
}

/// Appends what is kept before the first instant of the node that a part calls, if it is a call.
#[cycle(start)]
fn start_call(
    alloc: Global,
    program: &Program,
    depth: usize,
    part: &Part<'_>,
    called: &mut Vec<Moment>,
) -> Result<bool, Memory>
    ensures begins { IfOk result (λ b. IsTrue b → Begins (program_seen program.now) part.now called.old.items called.new.items) }
    ensures none { IfOk result (λ b. b ≡ false → MatchOption (callee_in (expression_of part.now.expr.now)) ⊥ (λ g. IsWithin (program_seen program.now) depth g → ⊥)) }
{
    match callee(part.expr) {
        Some(other) => match start_within(alloc, program, depth, other)? {
            Some(moment) => {
                called.push(moment)?;
                Ok(true)
            }
            None => Ok(false),
        },
        None => Ok(true),
    }
}
