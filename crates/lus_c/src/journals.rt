//! The entries of instances that were closed.
ghost use Rattle.std.specs.Prelude.{◌≡◌, ◌≤◌, length};
ghost use Rattle.lus_leaves.specs.Requests.{EntryIsTold};
ghost use Rattle.lus_c.specs.Held.{IsOkay};
ghost use Rattle.lus_c.specs.Served.{IsEntered, IsNone};
ghost use Rattle.lus_c.specs.Kept.{HeldTellsEntry, HeldCounts, HeldEndsBefore};

use crate::status::{NONE, OK, SHORT};
use lus_foreign::{Content, HANDLE, Handle};
use lus_leaves::{EntryOut, Leaf, write_entry};
use lus_requests::Entry;
use std::alloc::Global;

/// How many entries a journal has.
#[unsafe(no_mangle)]
pub extern "C" fn lus_raw_entries(alloc: Global, journal: &mut Handle, count: &mut u64) -> u32
    ensures counted { IsOkay result → HeldCounts journal.old.kept.held count.new }
    ensures same { journal.new.kept.held ≡ journal.old.kept.held }
{
    let mut ask = |content: &Content| match content {
        Content::Journal(closed) => {
            *count = closed.entries.len() as u64;
            OK
        }
        _ => HANDLE,
    };
    journal.with(alloc, &mut ask)
}

/// An entry of a journal, by its place from 0.
#[unsafe(no_mangle)]
pub extern "C" fn lus_raw_entry(
    alloc: Global,
    journal: &mut Handle,
    place: u64,
    out: &mut EntryOut,
    inputs: &mut [Leaf],
    outputs: &mut [Leaf],
) -> u32
    ensures told { IsEntered result → HeldTellsEntry journal.old.kept.held place out.new inputs.old inputs.new outputs.old outputs.new }
    ensures room { IsOkay result → (out.new.inputs ≤ length inputs.new) × (out.new.outputs ≤ length outputs.new) }
    ensures none { IsNone result → HeldEndsBefore journal.old.kept.held place }
    ensures same { journal.new.kept.held ≡ journal.old.kept.held }
{
    let mut ask = |content: &Content| match content {
        Content::Journal(closed) => match closed.entries.get(place as usize) {
            Some(entry) => tell(entry, out, inputs, outputs),
            None => NONE,
        },
        _ => HANDLE,
    };
    journal.with(alloc, &mut ask)
}

/// Tells C an entry, as far as its arrays have room.
pub(crate) fn tell(
    entry: &Entry,
    out: &mut EntryOut,
    inputs: &mut [Leaf],
    outputs: &mut [Leaf],
) -> u32
    ensures entered { IsEntered result }
    ensures told { EntryIsTold entry.now out.new inputs.old inputs.new outputs.old outputs.new }
    ensures room { IsOkay result → (out.new.inputs ≤ length inputs.new) × (out.new.outputs ≤ length outputs.new) }
{
    write_entry(out, inputs, outputs, entry);
    if out.inputs > inputs.len() as u64 || out.outputs > outputs.len() as u64 {
        SHORT
    } else {
        OK
    }
}
