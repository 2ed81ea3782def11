//! A host of its own: compiles a text, steps an instance of its node by one caller, and lets two callers on threads share another.
#![tactic(auto)]

mod alone;
mod together;

use alone::count_alone;
use lus_host::{Program, compile};
use std::process::ExitCode;
use std::sync::{Arc, Wait};
use std::thread::Threads;
use together::count_together;

const COUNTER: &str =
    "node counter(passed: bool) returns (count: int); let count = (0 -> pre count) + (if passed then 1 else 0); tel";

/// The program, to be shared by instances.
fn program<R: AllocGlobal>(rt: &R) -> Option<Arc<Program>> {
    let program = compile(rt.alloc(), COUNTER).ok()?;
    Arc::new(rt.alloc(), program).ok()
}

fn run<R: AllocGlobal + Print + Threads + Wait + Sync>(rt: &R) -> Option<()> {
    let program = program(rt)?;
    count_alone(rt, &program)?;
    count_together(rt, &program)
}

fn main(rt: HostRuntime) -> ExitCode {
    match run(&rt) {
        Some(()) => ExitCode::from(0),
        None => ExitCode::from(1),
    }
}
