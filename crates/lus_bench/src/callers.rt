//! Callers that share one instance, each on a thread of its own.

use lus_host::lus_callers::{fit, run_callers};
use lus_host::{
    Call, Caller, LockedNode, Memory, NodeId, OpenGate, Program, Request, Row, SeatNode,
};
use std::alloc::Global;
use std::sync::{Arc, Wait};
use std::thread::Threads;

/// How callers share an instance.
#[derive(Clone, Copy)]
pub enum Sharing {
    Lock,
    Seats,
}

impl Sharing {
    /// The way of this name.
    pub fn named(name: &str) -> Option<Sharing> {
        match name {
            "lock" => Some(Sharing::Lock),
            "seats" => Some(Sharing::Seats),
            _ => None,
        }
    }
}

// So many callers, which step the one instance so many times each.
fn stepping(alloc: Global, callers: u32, steps: u32) -> Result<Vec<Caller>, Memory> {
    let mut all = Vec::new(alloc);
    for _caller in 0..callers {
        let mut calls = Vec::new(alloc);
        for _step in 0..steps {
            let request = Request::Step(Row::new(Vec::new(alloc)));
            calls.push(Call { on: 0, request })?;
        }
        all.push(Caller { calls })?;
    }
    Ok(all)
}

/// How many entries an instance of the node has once all callers have made their steps.
pub fn entries<R: AllocGlobal + Threads + Wait + Sync>(
    rt: &R,
    program: &Arc<Program>,
    node: NodeId,
    callers: u32,
    steps: u32,
    sharing: Sharing,
) -> Option<usize> {
    let alloc = rt.alloc();
    let nodes = [node];
    let callers = stepping(alloc, callers, steps).ok()?;
    if !fit(program, &nodes, callers.as_slice()) {
        return None;
    }
    let ended = match sharing {
        Sharing::Lock => run_callers::<LockedNode, OpenGate, R>(
            rt,
            alloc,
            program,
            &nodes,
            callers.as_slice(),
            &OpenGate,
        ),
        Sharing::Seats => run_callers::<SeatNode, OpenGate, R>(
            rt,
            alloc,
            program,
            &nodes,
            callers.as_slice(),
            &OpenGate,
        ),
    };
    let done = ended.ok()?;
    let journal = done.journals.get(0)?;
    Some(journal.entries.len())
}
