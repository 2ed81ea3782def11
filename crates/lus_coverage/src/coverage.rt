//! Branches that runs take.

ghost use Rattle.std.specs.Prelude.{map};
ghost use Rattle.lus_values.specs.Lists.{Each};
ghost use Rattle.lus_program.specs.View.{program_seen};
ghost use Rattle.lus_order.specs.Orders.{IsNarrow, NeedsVariables};

use crate::branch::Branch;
use crate::taking::take;
use crate::text::{Text, text_of};
use lus_order::orders_of;
use lus_program::Program;
use lus_requests::{Reply, Request};
use lus_values::{Memory, Row};
use lus_worlds::{Moment, Stop, extend, start};
use std::alloc::Global;

/// The branches of all nodes of a program, and how often runs took each so far.
#[derive(Drop)]
pub struct Coverage<'p> {
    alloc: Global,
    program: &'p Program,
    orders: Vec<Vec<u32>>,
    texts: Vec<Text<'p>>,
    counts: Vec<Vec<u64>>,
}

/// So many zeros.
fn zeros(alloc: Global, count: usize) -> Result<Vec<u64>, Memory> {
    let mut zeros = Vec::new(alloc);
    for _place in 0..count {
        zeros.push(0)?;
    }
    Ok(zeros)
}

/// Appends the branches in the text of a node.
fn push_branches(
    branches: &mut Vec<Branch>,
    node: u32,
    text: &Text<'_>,
    counts: &[u64],
) -> Result<(), Memory> {
    for (place, part) in text.parts.iter().enumerate() {
        if let Some(Some(choice)) = text.choices.get(place) {
            branches.push(Branch {
                node,
                place: part.expr.place,
                choice: *choice,
                taken: counts.get(place).copied().unwrap_or(0),
            })?;
        }
    }
    Ok(())
}

impl<'p> Coverage<'p> {
    /// No run took a branch yet.
    pub fn new(alloc: Global, program: &'p Program) -> Result<Coverage<'p>, Memory>
        requires needs { Each NeedsVariables (program_seen program.now).nodes }
        requires narrow { Each IsNarrow (program_seen program.now).nodes }
    {
        let Ok(orders) = orders_of(alloc, program) else {
            return Err(Memory);
        };
        let mut texts = Vec::new(alloc);
        let mut counts = Vec::new(alloc);
        for node in &program.nodes {
            let text = text_of(alloc, program, node)?;
            counts.push(zeros(alloc, text.parts.len())?)?;
            texts.push(text)?;
        }
        Ok(Coverage {
            alloc,
            program,
            orders,
            texts,
            counts,
        })
    }

    /// The instant of a node behind another one with these inputs, if there is one, and counts the branches that it takes.
    fn step(&mut self, node: u32, inputs: &Row, old: &Moment) -> Result<Option<Moment>, Memory> {
        match extend(
            self.alloc,
            self.program,
            &self.orders,
            node,
            inputs.items(),
            old,
        ) {
            Ok(new) => {
                take(self.alloc, &self.texts, node, old, &new, &mut self.counts)?;
                Ok(Some(new))
            }
            Err(Stop::Memory) => Err(Memory),
            Err(Stop::Fault(_)) => Ok(None),
            Err(Stop::Presence) => Ok(None),
        }
    }

    /// Counts the branches that a run of a node takes, from its first instant on: these are the replies to its steps. A step that was
    /// refused takes none. Linear in the steps; each costs what the reference evaluator takes for an instant.
    pub fn follow(
        &mut self,
        node: u32,
        steps: &[Request],
        replies: &[Reply],
    ) -> Result<(), Memory> {
        let Some(mut moment) = start(self.alloc, self.program, node)? else {
            return Ok(());
        };
        for (step, reply) in steps.iter().zip(replies) {
            if let (Request::Step(inputs), Reply::Outputs(_)) = (step, reply)
                && let Some(next) = self.step(node, inputs, &moment)?
            {
                moment = next;
            }
        }
        Ok(())
    }

    /// The branches of all nodes, in the order of the source.
    pub fn branches(&self) -> Result<Vec<Branch>, Memory> {
        let mut branches = Vec::new(self.alloc);
        let mut node = 0u32;
        for (text, counts) in self.texts.iter().zip(&self.counts) {
            push_branches(&mut branches, node, text, counts)?;
            node = node.saturating_add(1);
        }
        // (the branches of a merge stand in the order of the constructors)
        branches.sort_by_key(|branch| branch.place.byte)?;
        Ok(branches)
    }
}
