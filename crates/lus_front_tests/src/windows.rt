//! What a window shows of the instants of a journal's entries.

use crate::worlds::{SLOWER, inputs, is_number, ordered_of};
use lus_order::Ordered;
use lus_requests::{Reply, Request};
use lus_values::{Memory, Row};
use lus_windows::{Pick, Window};
use std::alloc::Global;
use std::test::Fail;

/// The first output of the caller, and the output of the node that it calls.
fn picks(alloc: Global) -> Result<Vec<Pick>, Memory> {
    let mut way = Vec::new(alloc);
    way.push(0)?;
    let mut picks = Vec::new(alloc);
    picks.push(Pick {
        way: Vec::new(alloc),
        variable: 2,
    })?;
    picks.push(Pick { way, variable: 1 })?;
    Ok(picks)
}

/// Follows a step with these inputs.
fn step(
    alloc: Global,
    ordered: &Ordered,
    window: &mut Window,
    number: i64,
    truth: bool,
    picked: &mut Vec<Row>,
) -> Result<(), Memory> {
    let request = Request::Step(inputs(alloc, number, truth)?);
    let reply = Reply::Outputs(Row::new(Vec::new(alloc)));
    let picks = picks(alloc)?;
    window.follow(alloc, ordered.program(), &request, &reply, &picks, picked)
}

/// Follows a request that was done.
fn done(
    alloc: Global,
    ordered: &Ordered,
    window: &mut Window,
    request: &Request,
    picked: &mut Vec<Row>,
) -> Result<(), Memory> {
    window.follow(alloc, ordered.program(), request, &Reply::Done, &[], picked)
}

/// A window before the first entry of the caller.
fn begin(alloc: Global, ordered: &Ordered) -> Result<Window, Memory> {
    let program = ordered.program();
    if program.nodes.len() < 2 {
        return Err(Memory);
    }
    Window::new(alloc, program, 1)
}

/// What is picked of four steps, the third of which a restore brings behind the first, and the fourth of which a reset makes the first.
fn picked_of(alloc: Global, ordered: &Ordered) -> Result<Vec<Row>, Memory> {
    let mut picked = Vec::new(alloc);
    let mut window = begin(alloc, ordered)?;
    step(alloc, ordered, &mut window, 3, true, &mut picked)?;
    done(alloc, ordered, &mut window, &Request::Save(5), &mut picked)?;
    step(alloc, ordered, &mut window, 2, false, &mut picked)?;
    done(
        alloc,
        ordered,
        &mut window,
        &Request::Restore(5),
        &mut picked,
    )?;
    step(alloc, ordered, &mut window, 6, true, &mut picked)?;
    done(alloc, ordered, &mut window, &Request::Reset, &mut picked)?;
    step(alloc, ordered, &mut window, 12, true, &mut picked)?;
    if window.is_lost() {
        picked.clear();
    }
    Ok(picked)
}

/// Whether the two entries of a row are these, the second absent where it isn't told.
fn are(row: &Row, first: i64, second: Option<i64>) -> bool {
    let called = match second {
        Some(number) => is_number(row, 1, number),
        None => matches!(row.items().get(1), Some(None)),
    };
    is_number(row, 0, first) && called
}

#[test]
fn entries_of_called_nodes_are_picked(rt: HostRuntime) -> Result<(), Fail> {
    match ordered_of(rt.alloc(), SLOWER) {
        Ok(ordered) => {
            let picked = picked_of(rt.alloc(), &ordered)?;
            let [first, second, third, fourth] = picked.as_slice() else {
                assert!(rt; false);
                return Ok(());
            };
            assert!(rt; are(first, 4, Some(0)));
            assert!(rt; are(second, 10, None));
            assert!(rt; are(third, 6, Some(1)));
            assert!(rt; are(fourth, 1, Some(0)));
        }
        Err(_) => assert!(rt; false),
    }
    Ok(())
}
