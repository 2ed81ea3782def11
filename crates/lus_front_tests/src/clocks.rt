//! The tests of a clock, one after the other.

use lus_clocks::tests_of;
use lus_grammar::parse;
use lus_program::{Program, Test};
use lus_syntax::{Refusal, lex};
use lus_types::check_types;
use std::alloc::Global;
use std::test::Fail;

/// A node whose third variable has a clock of two tests.
const SAMPLED: &str =
    "node n(c: bool; d: bool when c; x: int when not d) returns (y: int); let y = 1; tel";

fn is(test: Option<Test>, variable: u32, constructor: u32) -> bool {
    match test {
        Some(found) => found.variable == variable && found.constructor == constructor,
        None => false,
    }
}

/// Whether the tests of the third variable are those on the second and on the first, in this order.
fn has_two_tests(program: &Program) -> bool {
    match program.nodes.first() {
        Some(node) => {
            let mut tests = tests_of(&node.variables, 2);
            is(tests.next(), 1, 0) && is(tests.next(), 0, 1) && tests.next().is_none()
        }
        None => false,
    }
}

fn is_sampled(alloc: Global) -> Result<bool, Refusal> {
    let tokens = lex(alloc, SAMPLED)?;
    let tree = parse(alloc, &tokens)?;
    let typed = check_types(alloc, tree)?;
    Ok(has_two_tests(typed.sound().program()))
}

#[test]
fn the_newest_test_is_first(rt: HostRuntime) -> Result<(), Fail> {
    assert!(rt; matches!(is_sampled(rt.alloc()), Ok(true)));
    Ok(())
}
