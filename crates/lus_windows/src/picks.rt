//! Entries that are picked of instants.

ghost use Rattle.std.specs.Prelude.{◌≡◌, IfOk, map};
ghost use Rattle.lus_values.specs.View.{entry_of};
ghost use Rattle.lus_streams.specs.Streams.{entry};
ghost use Rattle.lus_worlds.specs.Moments.{instant_of};
ghost use Rattle.lus_windows.specs.Picks.{instant_at, picked_at};

use lus_reference::entry_at;
use lus_values::{Memory, Row, Value};
use lus_worlds::Moment;
use std::alloc::Global;

/// A variable of a node or of one that it calls: the calls that lead to it, each by its number in the text of the node before.
#[derive(Drop)]
pub struct Pick {
    pub way: Vec<u32>,
    pub variable: u32,
}

/// What a variable holds at an instant, in the node that a way of calls leads to.
fn entry_behind(
    alloc: Global,
    moment: &Moment,
    way: &[u32],
    variable: u32,
) -> Result<Option<Value>, Memory>
    ensures { IfOk result (λ e. entry_of e ≡ entry (instant_at way.now (instant_of moment.now)) variable) }
{
    match way {
        [] => entry_at(alloc, moment.row.items(), variable as usize),
        [call, rest @ ..] => match moment.called.get(*call as usize) {
            Some(called) => entry_behind(alloc, called, rest, variable),
            None => Ok(None),
        },
    }
}

/// What the picked variables hold at an instant.
pub(crate) fn pick_row(alloc: Global, moment: &Moment, picks: &[Pick]) -> Result<Row, Memory>
    ensures { IfOk result (λ row. row ≡ map (picked_at (instant_of moment.now)) picks.now) }
{
    let mut row = Vec::new(alloc);
    for picked in picks {
        let entry = entry_behind(alloc, moment, &picked.way, picked.variable)?;
        row.push(entry)?;
    }
    Ok(Row::new(row))
}
