//! The text of a refusal. Which texts are refused is in `rows/`.

use lus_syntax::{Cycle, Refusal, RefusalNumber};
use std::alloc::{AllocError, Global};
use std::test::Fail;

fn a_and_b(alloc: Global) -> Result<Vec<String>, AllocError> {
    let mut names = Vec::new(alloc);
    names.push(String::from_str(alloc, "a")?)?;
    names.push(String::from_str(alloc, "b")?)?;
    Ok(names)
}

/// The texts of a fault of the syntax, of one of memory, and of a cycle.
fn written(alloc: Global) -> Result<String, AllocError> {
    let syntax = Refusal::new(RefusalNumber::Syntax, 2, 12);
    let memory = Refusal::memory();
    let cycle = Refusal::with_cycle(1, 50, a_and_b(alloc)?);
    format!(in alloc; "{syntax}, {memory}, {cycle}")
}

/// Whether a cycle's names are kept, and none is without names.
fn are_named(alloc: Global) -> Result<bool, AllocError> {
    let cycle = Refusal::with_cycle(1, 50, a_and_b(alloc)?);
    Ok(cycle.cycle.names().len() == 2 && Cycle::none().names().is_empty())
}

#[test]
fn a_refusal_prints_its_number_place_and_cycle(rt: HostRuntime) -> Result<(), Fail> {
    let alloc = rt.alloc();
    let text = written(alloc)?;
    assert_eq!(rt;
        text.as_str(),
        "E2 line 2 column 12, E11, E7 line 1 column 50 cycle a b"
    );
    assert!(rt; are_named(alloc)?);
    Ok(())
}
