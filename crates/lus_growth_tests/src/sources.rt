//! Sources that are compiled and scripts that are read.

use crate::requests::{SUMS, again};
use lus_host::{Fits, Formal, NodeId, Program, ScriptRefusal, compile, read_scripts};
use lus_program::Kind;
use lus_syntax::{Refusal, RefusalNumber};
use lus_values::Memory;
use std::alloc::Global;
use std::test::Fail;

const CHOICES: &str =
    "type e = enum { A, B }; node g(k: e; a: int when A(k); b: int when B(k)) returns (y: int); let y = merge k (A -> a) (B -> b); tel\n";

const ROUND: &str = "node q(x: int) returns (a: int); var b: int; let a = b; b = a; tel\n";

/// What a text is compiled to.
fn answer(alloc: Global, text: &str) -> Result<Result<Program, Refusal>, Memory> {
    match compile(alloc, text) {
        Ok(program) => Ok(Ok(program)),
        Err(refusal) => {
            if refusal.number == RefusalNumber::Memory {
                Err(Memory)
            } else {
                Ok(Err(refusal))
            }
        }
    }
}

/// Whether a variable has this name, this type, and is there where the first variable is this constructor, or always.
fn is(variable: &Formal, name: &str, kind: Kind, constructor: Option<u32>) -> bool {
    let is_there = match (variable.test, constructor) {
        (None, None) => true,
        (Some(test), Some(wanted)) => test.variable == 0 && test.constructor == wanted,
        _ => false,
    };
    variable.name.as_str() == name && variable.kind == kind && is_there
}

/// Whether a program shows all that `CHOICES` declares.
fn has_choices(program: &Program) -> bool {
    let node = NodeId(0);
    if program.nodes() != 1 || program.node("g") != Some(node) || !program.has(node) {
        return false;
    }
    let names = program.names();
    let are_there = match (program.inputs(node), program.outputs(node)) {
        ([k, a, b], [y]) => {
            is(k, "k", Kind::Enum(0), None)
                && is(a, "a", Kind::Int, Some(0))
                && is(b, "b", Kind::Int, Some(1))
                && is(y, "y", Kind::Int, None)
        }
        _ => false,
    };
    are_there && names.find("A") == Some((0, 0)) && names.find("B") == Some((0, 1))
}

fn is_accepted(alloc: Global, text: &str) -> Result<bool, Memory> {
    match answer(alloc, text)? {
        Ok(program) => Ok(has_choices(&program)),
        Err(_) => Ok(false),
    }
}

/// Whether a text is refused for a cycle of two variables, which is named.
fn is_round(alloc: Global, text: &str) -> Result<bool, Memory> {
    match answer(alloc, text)? {
        Ok(_) => Ok(false),
        Err(refusal) => {
            let place = (refusal.line, refusal.column) == (1, 50);
            match refusal.cycle.names() {
                [a, b] => Ok(place && a.as_str() == "a" && b.as_str() == "b"),
                _ => Ok(false),
            }
        }
    }
}

#[test]
fn sources_are_compiled(rt: HostRuntime) -> Result<(), Fail> {
    let alloc = rt.alloc();
    assert!(&rt; again(is_accepted(alloc, CHOICES), is_accepted(alloc, CHOICES)));
    assert!(&rt; again(is_round(alloc, ROUND), is_round(alloc, ROUND)));
    Ok(())
}

/// Whether scripts of one caller are read.
fn are_read(alloc: Global, program: &Program, bytes: &[u8]) -> Result<bool, Memory> {
    match read_scripts(alloc, program, bytes) {
        Ok(scripts) => {
            let counts = (scripts.instances.len(), scripts.callers.len());
            Ok(counts == (1, 1) && scripts.fits(program))
        }
        Err(ScriptRefusal::Memory) => Err(Memory),
        Err(_) => Ok(false),
    }
}

#[test]
fn scripts_are_read(rt: HostRuntime) -> Result<(), Fail> {
    let alloc = rt.alloc();
    let scripts =
        r#"{"instances":[{"name":"k","node":"s"}],"callers":[{"name":"a","calls":[{"on":"k","step":[1]},{"on":"k","save":0},{"on":"k","burst":[[2],[3]]}]}]}"#;
    let bytes = scripts.as_bytes();
    let Ok(program) = compile(alloc, SUMS) else {
        return Ok(());
    };
    assert!(&rt;
        again(
            are_read(alloc, &program, bytes),
            are_read(alloc, &program, bytes)
        )
    );
    Ok(())
}
