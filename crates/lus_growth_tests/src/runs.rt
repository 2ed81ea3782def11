//! Runs of one caller.

use crate::requests::SUMS;
use lus_host::{OpenGate, RunError, run};
use std::sync::Wait;
use std::test::Fail;
use std::thread::Threads;

const SCRIPTS: &str =
    r#"{"instances":[{"name":"k","node":"s"}],"callers":[{"name":"a","calls":[{"on":"k","step":[2]},{"on":"k","step":[3]}]}]}"#;

const JOURNAL: &str = "instance k s\n1 a step(2) -> (2)\n2 a step(3) -> (5)\nentries 2\n";

/// The journals of a caller that ran out at its first call, and at its second.
const FRONTS: [&str; 2] = [
    "instance k s\nentries 0\n",
    "instance k s\n1 a step(2) -> (2)\nentries 1\n",
];

/// Whether a run ends as it always does, or out of memory, with what may then be written.
fn is_right(answer: &Result<bool, RunError>, written: &[u8]) -> bool {
    match answer {
        Ok(true) => written == JOURNAL.as_bytes(),
        Ok(false) => FRONTS.iter().any(|text| written == text.as_bytes()),
        Err(RunError::Memory) => JOURNAL.as_bytes().starts_with(written),
        Err(_) => written.is_empty(),
    }
}

#[test]
fn a_caller_is_run(rt: HostRuntime) -> Result<(), Fail> {
    let alloc = rt.alloc();
    let mut is_done = false;
    for _turn in 0..2u32 {
        let mut program = SUMS.as_bytes();
        let mut scripts = SCRIPTS.as_bytes();
        // The output needs no more memory while the run writes.
        let Ok(mut output) = Vec::with_capacity(alloc, 200) else {
            continue;
        };
        let answer = run(
            &rt,
            alloc,
            &mut program,
            &mut scripts,
            &mut output,
            &OpenGate,
        );
        assert!(&rt; is_right(&answer, &output));
        is_done = is_done || matches!(answer, Ok(true));
    }
    // One growth is refused at most, so that one of both turns has all memory.
    assert!(&rt; is_done);
    Ok(())
}
