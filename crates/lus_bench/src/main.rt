//! What `bench/run` measures. `lus_bench PROGRAM STEPS` steps an instance of a program's last node, which takes no inputs, so many times,
//! and prints its last outputs, one a line. `lus_bench PROGRAM STEPS CALLERS lock`, or `seats`, lets each of so many callers, on a thread
//! of its own, step the one instance, and prints how many entries it has. The status is 0 where it is done, 2 for words that ask for
//! nothing, else 1.
#![tactic(auto)]

mod callers;

ghost use Rattle.std.specs.Prelude.{◌<◌, length};
ghost use Rattle.std.specs.Arc.{arc_value};
ghost use Rattle.lus_host.specs.CodeSpecs.Codes.{program_of};

use callers::{Sharing, entries};
use lus_host::{CallError, Machine, NodeId, Program, Reply, Request, Row, compile, print};
use std::alloc::{AllocError, Global};
use std::process::ExitCode;
use std::rt::Files;
use std::sync::{Arc, Wait};
use std::thread::Threads;
use std::{env, fs};

/// The reply to the last of so many steps of an instance, none where there is no step.
fn stepped(
    alloc: Global,
    program: Arc<Program>,
    node: NodeId,
    steps: u32,
) -> Result<Option<Reply>, CallError>
    requires { node.0 < length (program_of (arc_value program)).nodes }
{
    let Ok(mut machine) = Machine::new(alloc, program, node) else {
        return Err(CallError::Memory);
    };
    let request = Request::Step(Row::new(Vec::new(alloc)));
    let mut last = None;
    for _step in 0..steps {
        last = Some(machine.call(0, &request)?);
    }
    Ok(last)
}

/// The program of a file.
fn program_in<R: Files + AllocGlobal>(rt: &R, name: &str) -> Option<Arc<Program>> {
    let text = fs::read_to_string(rt, name).ok()?;
    let program = compile(rt.alloc(), text.as_str()).ok()?;
    Arc::new(rt.alloc(), program).ok()
}

/// Prints the outputs of a reply, if it has any.
fn tell<R: AllocGlobal + Print>(rt: &R, program: &Program, reply: &Reply) -> Option<()> {
    let Reply::Outputs(outputs) = reply else {
        return None;
    };
    for entry in outputs.items() {
        let Some(value) = entry else {
            return None;
        };
        let text = print(rt.alloc(), value, program.names()).ok()?;
        println!(rt; "{text}").ok()?;
    }
    Some(())
}

/// Does what the words ask for, or nothing where that can't be done.
fn run<R: Files + AllocGlobal + Print>(rt: &R, name: &str, steps: &str) -> Option<()> {
    let steps: u32 = steps.parse().ok()?;
    let program = program_in(rt, name)?;
    let node = NodeId(program.nodes().checked_sub(1)?);
    if !program.has(node) {
        return None;
    }
    let Ok(kept): Result<Arc<Program>, AllocError> = program.clone() else {
        return None;
    };
    let last = stepped(rt.alloc(), kept, node, steps).ok()??;
    tell(rt, &program, &last)
}

/// Lets so many callers share an instance, and prints how many entries it has in the end.
fn share<R: Files + AllocGlobal + Print + Threads + Wait + Sync>(
    rt: &R,
    name: &str,
    steps: &str,
    callers: &str,
    sharing: &str,
) -> Option<()> {
    let steps: u32 = steps.parse().ok()?;
    let callers: u32 = callers.parse().ok()?;
    let sharing = Sharing::named(sharing)?;
    let program = program_in(rt, name)?;
    let node = NodeId(program.nodes().checked_sub(1)?);
    let count = entries(rt, &program, node, callers, steps, sharing)?;
    println!(rt; "{count}").ok()
}

/// Does what the words ask for, and gives the status of the process.
fn measure<R: Files + AllocGlobal + Print + Threads + Wait + Sync>(rt: &R, words: &[String]) -> u8 {
    let done = match words {
        [name, steps] => run(rt, name.as_str(), steps.as_str()),
        [name, steps, callers, sharing] => share(
            rt,
            name.as_str(),
            steps.as_str(),
            callers.as_str(),
            sharing.as_str(),
        ),
        _ => return 2,
    };
    match done {
        Some(()) => 0,
        None => 1,
    }
}

fn main(rt: HostRuntime) -> ExitCode {
    let Ok(arguments) = env::args(&rt) else {
        return ExitCode::from(2);
    };
    let Ok(arguments): Result<Vec<String>, AllocError> = arguments.collect(rt.alloc()) else {
        return ExitCode::from(1);
    };
    ExitCode::from(match arguments.split_first() {
        Some((_, words)) => measure(&rt, words),
        None => 2,
    })
}
