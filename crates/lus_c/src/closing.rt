//! Seats that are gathered, and the end of their instance.
ghost use Rattle.std.specs.Prelude.{◌≡◌, ◌⊎◌, false, None, IfOk, IfErr};
ghost use Rattle.lus_c.specs.Held.{IsOkay, HeldEnds, ContentJoins, HeldJoins, HeldGathers, HeldIsEmpty};
ghost use Rattle.lus_c.specs.Opened.{SeatsPopped, HeldPops};
ghost use Rattle.lus_c.specs.Owed.{ContentTells, HeldTells, BothTell};

use crate::status::{MEMORY, NONE, OK, SEATS, fill};
use lus_foreign::{Content, Ended, HANDLE, Handle, SeatGroup};
use std::alloc::Global;
use std::mem;

/// The last of the seats that are together, in `seat`.
#[unsafe(no_mangle)]
pub extern "C" fn lus_raw_pop(alloc: Global, gather: &mut Handle, seat: &mut Handle) -> u32
    ensures popped { IsOkay result → HeldPops gather.old.kept.held gather.new.kept.held seat.new.kept.held }
    ensures missed { IsOkay result ⊎ ((gather.new.kept.held ≡ gather.old.kept.held) × (seat.new.kept.held ≡ seat.old.kept.held)) }
{
    let mut ask = |content: &mut Content| match content {
        Content::Group(seats) => pop_from(alloc, seats, seat),
        _ => HANDLE,
    };
    gather.with_mut(alloc, &mut ask)
}

// The box is made first, so that no seat is lost where there is no memory for it.
fn pop_from(alloc: Global, seats: &mut SeatGroup, seat: &mut Handle) -> u32
    ensures popped { IsOkay result → SeatsPopped seats.old seats.new seat.new.kept.held }
    ensures missed { IsOkay result ⊎ ((seats.new ≡ seats.old) × (seat.new.kept.held ≡ seat.old.kept.held)) }
{
    if !seat.is_free() {
        return HANDLE;
    }
    let Ok(mut content) = Box::new(alloc, Content::none(alloc)) else {
        return MEMORY;
    };
    let Some(last) = seats.pop() else {
        return NONE;
    };
    *content = Content::Seat(last);
    seat.put(content);
    OK
}

/// No seats yet, in `gather`.
#[unsafe(no_mangle)]
pub extern "C" fn lus_raw_gather_none(alloc: Global, gather: &mut Handle) -> u32
    ensures { IsOkay result → HeldIsEmpty gather.new.kept.held }
{
    if !gather.is_free() {
        return HANDLE;
    }
    fill(alloc, gather, Content::Group(SeatGroup::empty(alloc)))
}

fn push_in(seats: &mut SeatGroup, content: Content) -> Result<(), (Content, u32)>
    requires { ContentTells seats.old content }
    ensures ok { IfOk result (λ u. ContentJoins seats.old content seats.new) }
    ensures err { IfErr result (λ e. IsOkay e.1 → ⊥) }
{
    let Content::Seat(seat) = content else {
        return Err((content, HANDLE));
    };
    if !seats.is_mate(&seat) {
        return Err((Content::Seat(seat), SEATS));
    }
    match seats.push(seat) {
        Ok(()) => Ok(()),
        Err(seat) => Err((Content::Seat(seat), MEMORY)),
    }
}

fn gather_in(alloc: Global, seats: &mut SeatGroup, seat: &mut Handle) -> u32
    requires { HeldTells seats.old seat.old.kept.held }
    ensures { IsOkay result → HeldJoins seats.old seat.old.kept.held seats.new × (seat.new.kept.held ≡ None) }
{
    let Some(mut content) = seat.take(alloc) else {
        return HANDLE;
    };
    let held = mem::replace(&mut *content, Content::none(alloc));
    match push_in(seats, held) {
        Ok(()) => OK,
        Err((held, status)) => {
            *content = held;
            seat.put(content);
            status
        }
    }
}

/// Puts a seat to those that are together.
#[unsafe(no_mangle)]
pub extern "C" fn lus_raw_gather(alloc: Global, gather: &mut Handle, seat: &mut Handle) -> u32
    requires { BothTell gather.old.kept.held seat.old.kept.held }
    ensures { IsOkay result → HeldGathers gather.old.kept.held seat.old.kept.held gather.new.kept.held × (seat.new.kept.held ≡ None) }
{
    let Some(mut content) = gather.take(alloc) else {
        return HANDLE;
    };
    let status = match &mut *content {
        Content::Group(seats) => gather_in(alloc, seats, seat),
        _ => HANDLE,
    };
    gather.put(content);
    status
}

/// Closes the instance of the seats that are together, where they are all of its seats: then the handle holds its entries.
#[unsafe(no_mangle)]
pub extern "C" fn lus_raw_close(alloc: Global, gather: &mut Handle) -> u32
    ensures { IsOkay result → HeldEnds gather.old.kept.held gather.new.kept.held }
{
    let mut ask = |content: Content| match content {
        Content::Group(seats) => match seats.close(alloc) {
            Ended::Closed(closed) => (Content::Journal(closed), OK),
            Ended::Strangers(seats) => (Content::Group(seats), SEATS),
            Ended::Memory(seats) => (Content::Group(seats), MEMORY),
            Ended::Lost => (Content::none(alloc), SEATS),
        },
        other => (other, HANDLE),
    };
    gather.replace(alloc, &mut ask)
}
