//! Seats that meet, and seats that have the machine to themselves.
ghost use Rattle.lus_c.specs.Held.{IsOkay};
ghost use Rattle.lus_c.specs.Owed.{SeatsTell, HeldSeatsTell};
ghost use Rattle.lus_c.specs.Met.{ContentsMeet, HeldMeet, HeldHolds, HeldReleases};

use crate::status::{BUSY, OK, SEATS};
use lus_foreign::{Content, HANDLE, Handle};
use std::alloc::Global;
use std::mem;

fn meet_in(first: Content, second: Content) -> (Content, Content, u32)
    requires { SeatsTell first second }
    ensures { IsOkay result.2 → ContentsMeet first second result.0 result.1 }
{
    let Content::Seat(first) = first else {
        return (first, second, HANDLE);
    };
    let Content::Seat(second) = second else {
        return (Content::Seat(first), second, HANDLE);
    };
    if first.id() != second.id() {
        return (Content::Seat(first), Content::Seat(second), SEATS);
    }
    let (first, second) = first.meet(second);
    (Content::Seat(first), Content::Seat(second), OK)
}

/// Lets two seats of one instance have seen the same.
#[unsafe(no_mangle)]
pub extern "C" fn lus_raw_meet(alloc: Global, first: &mut Handle, second: &mut Handle) -> u32
    requires { HeldSeatsTell first.old.kept.held second.old.kept.held }
    ensures { IsOkay result → HeldMeet first.old.kept.held second.old.kept.held first.new.kept.held second.new.kept.held }
{
    let Some(mut first_content) = first.take(alloc) else {
        return HANDLE;
    };
    let Some(mut second_content) = second.take(alloc) else {
        first.put(first_content);
        return HANDLE;
    };
    let first_held = mem::replace(&mut *first_content, Content::none(alloc));
    let second_held = mem::replace(&mut *second_content, Content::none(alloc));
    let (first_held, second_held, status) = meet_in(first_held, second_held);
    *first_content = first_held;
    *second_content = second_held;
    first.put(first_content);
    second.put(second_content);
    status
}

/// Takes the machine, where it is free, for this seat alone, until it is released. Where it isn't free, `count` is how many
/// entries there are.
#[unsafe(no_mangle)]
pub extern "C" fn lus_raw_hold(alloc: Global, seat: &mut Handle, count: &mut u64) -> u32
    ensures held { IsOkay result → HeldHolds seat.old.kept.held seat.new.kept.held }
{
    let mut ask = |content: Content| match content {
        Content::Seat(seat) => match seat.hold() {
            Ok(held) => (Content::Held(held), OK),
            Err((seat, busy)) => {
                *count = busy.0;
                (Content::Seat(seat), BUSY)
            }
        },
        other => (other, HANDLE),
    };
    seat.replace(alloc, &mut ask)
}

/// Gives the machine back as it was.
#[unsafe(no_mangle)]
pub extern "C" fn lus_raw_release(alloc: Global, seat: &mut Handle) -> u32
    ensures { IsOkay result → HeldReleases seat.old.kept.held seat.new.kept.held }
{
    let mut ask = |content: Content| match content {
        Content::Held(held) => (Content::Seat(held.release()), OK),
        other => (other, HANDLE),
    };
    seat.replace(alloc, &mut ask)
}
