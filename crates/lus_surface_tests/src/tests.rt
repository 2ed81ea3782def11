//! Scripts that are read, and run over both kinds of nodes.

use crate::hosts::{count_wants, read_and_fit, run_scripts};
use crate::machines::compile_text;
use lus_cli::lus_host::{Journals, LockedNode, OpenGate, Program, Scripts, SeatNode};
use std::alloc::Global;
use std::sync::{Arc, Wait};
use std::test::Fail;
use std::thread::Threads;

/// A node that counts its steps, and one that counts those of its steps at which its input is true.
const TEXT: &str =
    "node t() returns (n: int); let n = 0 -> pre n + 1; tel\nnode o(c: bool) returns (y: int when c); let y = t(); tel\n";

const SCRIPTS: &str =
    r#"{"instances":[{"name":"k","node":"t"},{"name":"j","node":"o"}],"callers":[{"name":"a","calls":[{"on":"k","step":[]},{"on":"j","step":[true]},{"on":"k","step":[]}]}]}"#;

/// Whether a run has left two journals, of two entries and of one.
fn is_whole(ran: &Journals) -> bool {
    match ran.journals.as_slice() {
        [first, second] => {
            count_wants(ran) == (2, 1, 1)
                && first.entries.len() == 2
                && second.entries.len() == 1
                && ran.wants.iter().all(|want| want.is_none())
        }
        _ => false,
    }
}

/// Whether the scripts are run over locks and over seats.
fn are_run<R: Threads + Wait + Sync>(
    rt: &R,
    alloc: Global,
    program: &Arc<Program>,
    scripts: &Scripts,
) -> bool {
    let locked = run_scripts::<LockedNode, OpenGate, R>(rt, alloc, program, scripts, &OpenGate);
    let seated = run_scripts::<SeatNode, OpenGate, R>(rt, alloc, program, scripts, &OpenGate);
    match (locked, seated) {
        (Some(Ok(first)), Some(Ok(second))) => is_whole(&first) && is_whole(&second),
        _ => false,
    }
}

#[test]
fn scripts_are_run(rt: HostRuntime) -> Result<(), Fail> {
    let alloc = rt.alloc();
    let Ok(program) = compile_text(alloc, TEXT) else {
        panic!(&rt; "the text is right")
    };
    let Ok((scripts, true)) = read_and_fit(alloc, &program, SCRIPTS.as_bytes()) else {
        panic!(&rt; "the scripts are right")
    };
    let program = Arc::new(alloc, program)?;
    assert!(&rt; are_run(&rt, alloc, &program, &scripts));
    Ok(())
}
