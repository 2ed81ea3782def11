//! A log in memory: it is written, is audited, and is the input of another run.

use lus_hosting::lus_bursts::Waiting;
use lus_hosting::lus_lawful::Unobserved;
use lus_hosting::lus_live_instance::lus_machine::compile;
use lus_hosting::lus_sessions::Score;
use lus_hosting::{LogLines, audit_log, host_behind, host_log, logs_are_joined, recover_log};
use std::collections::hash_map::RandomState;
use std::sync::Arc;
use std::test::Fail;

const PROGRAM: &str = "node sum(a: int) returns (y: int); let y = a + (0 -> pre y); tel\n";

const CALLS: &str = "k x [2]\nl x [3]\nk y [4]\nk y oops\n";

const LOG: &str =
    "k 1 x step(2) -> (2)\nl 1 x step(3) -> (3)\nk 2 y step(4) -> (6)\nk # y it is no value of JSON: unexpected `oops` at column 1\n";

const WRONG: &str = "k 1 x step(2) -> (2)\nl 1 x step(3) -> (5)\n";

const LAWFUL: &str = "entries 3 lawful\n";

const REPORT: &str = "line 2\nwritten l 1 x step(3) -> (5)\nright   l 1 x step(3) -> (3)\n";

#[test]
fn a_log_is_written_and_lawful(rt: HostRuntime) -> Result<(), Fail> {
    let alloc = rt.alloc();
    let Ok(program) = compile(alloc, PROGRAM) else {
        panic!(&rt; "the program is right")
    };
    let program = Arc::new(alloc, program)?;
    let Some(node) = program.node("sum") else {
        panic!(&rt; "the node is there")
    };
    assert!(&rt; program.has(node));
    let mut line = Vec::new(alloc);
    let mut right = String::new(alloc);
    let mut log = Vec::new(alloc);
    let mut calls = CALLS.as_bytes();
    let keys = RandomState::new(&rt)?;
    let hosted = host_log(
        alloc, &program, node, keys, &mut calls, &mut log, &mut line, &mut right,
    );
    let score = Score {
        entered: 3,
        refused: 1,
    };
    assert_eq!(rt; hosted, Ok(score));
    assert_eq!(rt; log.as_slice(), LOG.as_bytes());

    let mut entries = log.as_slice();
    let keys = RandomState::new(&rt)?;
    let mut nothing = Vec::new(alloc);
    let again = host_log(
        alloc,
        &program,
        node,
        keys,
        &mut entries,
        &mut nothing,
        &mut line,
        &mut right,
    );
    assert!(&rt; again.is_ok() && nothing.is_empty());

    let mut source = log.as_slice();
    let keys = RandomState::new(&rt)?;
    let audited = audit_log(
        alloc,
        &program,
        node,
        keys,
        &mut source,
        &mut line,
        &mut Unobserved,
    );
    let Ok(report) = audited else {
        panic!(&rt; "it is a log")
    };
    assert!(&rt; report.is_lawful);
    assert_eq!(rt; report.text.as_slice(), LAWFUL.as_bytes());

    let mut source = WRONG.as_bytes();
    let keys = RandomState::new(&rt)?;
    let audited = audit_log(
        alloc,
        &program,
        node,
        keys,
        &mut source,
        &mut line,
        &mut Unobserved,
    );
    let Ok(report) = audited else {
        panic!(&rt; "it is a log")
    };
    assert!(&rt; !report.is_lawful);
    assert_eq!(rt; report.text.as_slice(), REPORT.as_bytes());
    Ok(())
}

const CUT: &str = "k 1 x step(2) -> (2)\nl 1 x step(3) -> (3)\nk 2 y st";

const MORE: &str = "k 2 z step(4) -> (6)\n";

#[test]
fn a_log_is_gone_on_in(rt: HostRuntime) -> Result<(), Fail> {
    let alloc = rt.alloc();
    let Ok(program) = compile(alloc, PROGRAM) else {
        panic!(&rt; "the program is right")
    };
    let program = Arc::new(alloc, program)?;
    let Some(node) = program.node("sum") else {
        panic!(&rt; "the node is there")
    };
    assert!(&rt; program.has(node));
    let mut line = Vec::new(alloc);
    let mut right = String::new(alloc);
    let mut source = CUT.as_bytes();
    let keys = RandomState::new(&rt)?;
    let recovered = recover_log(
        alloc,
        &program,
        node,
        keys,
        &mut source,
        &mut line,
        &mut right,
    );
    let Ok(recovered) = recovered else {
        panic!(&rt; "it is a log")
    };
    assert_eq!(rt; recovered.cut, Some(3));
    assert_eq!(rt; recovered.bytes, 42);

    let teller = LogLines {
        alloc,
        names: program.names(),
    };
    let mut calls = "k [4]\nk 3 z step(4) -> (10)\n".as_bytes();
    let mut log = Vec::new(alloc);
    let mut output = Vec::new(alloc);
    let hosted = host_behind(
        alloc,
        &program,
        node,
        recovered,
        Some("z"),
        &teller,
        true,
        &Waiting::new(),
        &mut calls,
        &mut log,
        &mut output,
    );
    let score = Score {
        entered: 1,
        refused: 1,
    };
    assert_eq!(rt; hosted, Ok(score));
    assert_eq!(rt; log.as_slice(), MORE.as_bytes());
    let answers =
        "k 2 z step(4) -> (6)\nk # z it is no value of JSON: unexpected `z` at column 3\n";
    assert_eq!(rt; output.as_slice(), answers.as_bytes());
    logs_are_joined();
    Ok(())
}
