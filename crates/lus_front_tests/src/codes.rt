//! Classes, their code and state cells of small programs. That too many cells are refused is in `rows/`.

use lus_clocks::{check_clocks, check_nil};
use lus_code::{Code, translate};
use lus_grammar::parse;
use lus_normal::normalise;
use lus_order::order;
use lus_orders::{Call, Class as Emitted, Order};
use lus_program::NodeId;
use lus_syntax::{Refusal, lex};
use lus_types::check_types;
use std::alloc::{AllocError, Global};
use std::test::Fail;

/// The code of a text.
fn code_of(alloc: Global, text: &str) -> Result<Code, Refusal> {
    let tokens = lex(alloc, text)?;
    let tree = parse(alloc, &tokens)?;
    let typed = check_types(alloc, tree)?;
    let clocked = check_clocks(typed)?;
    let initialised = check_nil(alloc, clocked)?;
    let ordered = order(alloc, initialised)?;
    let normal = normalise(alloc, ordered)?;
    translate(alloc, normal)
}

/// A counter, and a node that calls it twice.
const TWICE: &str =
    "node t() returns (n: int); let n = 0 -> pre n + 1; tel node o() returns (x, y: int); let x = t(); y = t(); tel";

/// A node that calls a counter, which stands behind it.
const BEFORE: &str =
    "node o() returns (x: int); let x = t() + 1; tel node t() returns (n: int); let n = 0 -> pre n + 1; tel";

/// A counter, and a node that computes before and after it calls it.
const AROUND: &str =
    "node t() returns (n: int); let n = 0 -> pre n + 1; tel node o(x: int) returns (y: int); var a: int; let a = x + 1; y = a + t() * 2; tel";

/// Whether a call has so many cells, from there on.
fn stands(call: &Call, cells: u32, length: u32) -> bool {
    call.cells == cells && call.length == length
}

/// Whether the cells of the second call stand behind those of the first.
fn are_apart(calls: &[Call]) -> bool {
    match calls {
        [first, second] => stands(first, 0, 2) && stands(second, 2, 2),
        _ => false,
    }
}

/// A counter, and a node that calls it on a clock.
const SAMPLED: &str =
    "node t() returns (n: int); let n = 0 -> pre n + 1; tel node o(c: bool) returns (y: int when c); let y = t(); tel";

/// A sum, and a node that counts and calls it on a clock.
const BESIDE: &str =
    "node s(x: int) returns (y: int); let y = x + (0 -> pre y); tel node q(c: bool; x: int when c) returns (y: int when c; z: int); let y = s(x); z = 0 -> pre z + 1; tel";

/// A node with a memory, and further nodes of which each calls the one before it twice.
fn doubled(alloc: Global, times: u32) -> Result<String, AllocError> {
    let first = "node c0(x: int) returns (y: int); let y = 0 -> pre x; tel\n";
    let mut text = String::from_str(alloc, first)?;
    for number in 0..times {
        let next = number.saturating_add(1);
        let node = format!(in alloc;
            "node c{next}(x: int) returns (y: int); let y = c{number}(x) + c{number}(x); tel\n"
        )?;
        text.push_str(&node)?;
    }
    Ok(text)
}

/// Whether the last of so many nodes has so many state cells.
fn has_cells(code: &Code, nodes: u32, cells: u32) -> bool {
    0 < nodes && code.nodes() == nodes && code.cells(NodeId(nodes - 1)) == cells
}

#[test]
fn state_cells_are_counted(rt: HostRuntime) -> Result<(), Fail> {
    let alloc = rt.alloc();
    let text = doubled(alloc, 15)?;
    match (
        code_of(alloc, SAMPLED),
        code_of(alloc, BESIDE),
        code_of(alloc, &text),
    ) {
        (Ok(sampled), Ok(beside), Ok(doubled)) => {
            assert!(&rt; has_cells(&sampled, 2, 2));
            assert!(&rt; has_cells(&beside, 2, 4));
            assert!(&rt; has_cells(&doubled, 16, 65536));
        }
        _ => panic!(rt; "refused"),
    }
    Ok(())
}

fn has_calls_apart(code: &Code) -> bool {
    match code.emitted() {
        [_, caller] => caller.cells == 4 && are_apart(&caller.calls),
        _ => false,
    }
}

fn has_state_cells(code: &Code) -> bool {
    code.nodes() == 2 && code.cells(NodeId(0)) == 2 && code.cells(NodeId(1)) == 4
}

#[test]
fn cells_of_calls_stand_behind_each_other(rt: HostRuntime) -> Result<(), Fail> {
    let Ok(code) = code_of(rt.alloc(), TWICE) else {
        panic!(rt; "refused")
    };
    assert!(rt; has_calls_apart(&code));
    assert!(rt; has_state_cells(&code));
    Ok(())
}

fn has_caller_first(code: &Code) -> bool {
    match code.emitted() {
        [caller, _] => caller.cells == 2 && caller.calls.len() == 1,
        _ => false,
    }
}

#[test]
fn called_nodes_may_stand_behind_their_callers(rt: HostRuntime) -> Result<(), Fail> {
    let Ok(code) = code_of(rt.alloc(), BEFORE) else {
        panic!(rt; "refused")
    };
    assert!(rt; has_caller_first(&code));
    Ok(())
}

/// Whether an order is no instruction that isn't located.
fn is_located(order: &Order) -> bool {
    !matches!(order, Order::Other(_))
}

/// Whether all instructions of code are located.
fn are_located(emitted: &[Emitted]) -> bool {
    emitted
        .iter()
        .all(|class| class.code.iter().all(is_located))
}

#[test]
fn instructions_are_located(rt: HostRuntime) -> Result<(), Fail> {
    let Ok(code) = code_of(rt.alloc(), AROUND) else {
        panic!(rt; "refused")
    };
    assert!(rt; are_located(code.emitted()));
    Ok(())
}
