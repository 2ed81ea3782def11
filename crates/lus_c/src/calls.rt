//! Instances that are opened, and calls at them.
ghost use Rattle.std.specs.Prelude.{◌≡◌, ◌⊎◌, ◌≤◌, ◌<◌, [], length, Some, IfOk, MatchOption, ℕ, List};
ghost use Rattle.std.specs.Arc.{arc_value};
ghost use Rattle.lus_c.specs.Held.{IsOkay, HeldSees};
ghost use Rattle.lus_c.specs.Served.{IsEntered, IsBusy, IsFull, IsNone, IsValue, IsShort, NoneSpelled, HeldEnters, HeldWaits, HeldMisses, HeldTold, HeldUntold, HeldNumbered};
ghost use Rattle.lus_leaves.specs.Requests.{IsTold, Spells};
ghost use Rattle.lus_leaves.specs.declared.leaf.Leaf.{Leaf as LeafType};
ghost use Rattle.lus_foreign.specs.Seated.{AreOpened};
ghost use Rattle.lus_c.specs.Opened.{HeldOpens, HeldLacks};
ghost use Rattle.lus_shared.specs.CodeSpecs.Codes.{program_of};
ghost use Rattle.lus_requests.specs.declared.request.Reply.{Reply as ReplyType};
ghost use Rattle.lus_shared.specs.Views.{Adds, Sees};

use crate::status::{BUSY, FULL, MEMORY, NONE, OK, SHORT, VALUE, fill};
use lus_foreign::{Content, HANDLE, Handle, NodeSeat, Opening, SeatGroup};
use lus_leaves::{Answer, Leaf, request_of, write_reply};
use lus_requests::{Reply, Request};
use lus_shared::TryError;
use lus_shared::lus_machine::{Machine, NodeId, Program};
use lus_values::Memory;
use std::alloc::Global;
use std::sync::Arc;

fn open_machine(
    alloc: Global,
    program: &Arc<Program>,
    node: u32,
    callers: u32,
    id: u64,
) -> Result<Option<SeatGroup>, Memory>
    ensures { IfOk result (λ r. MatchOption r (length (program_of (arc_value program.now)).nodes ≤ node)
        (λ ss. AreOpened (record { program = program_of (arc_value program.now); node = node; history = [] }) callers id ss)) }
{
    let kind = NodeId(node);
    if !program.has(kind) {
        return Ok(None);
    }
    let machine = Machine::new(alloc, Arc::try_clone(program)?, kind)?;
    let program = Arc::try_clone(program)?;
    let opening = Opening { id, program, kind };
    Ok(Some(SeatGroup::open(alloc, machine, callers, opening)?))
}

/// An instance of a node, with the number that tells it from others: all of its seats, in `out`.
#[unsafe(no_mangle)]
pub extern "C" fn lus_raw_open(
    alloc: Global,
    program: &mut Handle,
    node: u32,
    callers: u32,
    id: u64,
    out: &mut Handle,
) -> u32
    ensures opened { IsOkay result → HeldOpens program.old.kept.held node callers id out.new.kept.held }
    ensures none { IsNone result → HeldLacks program.old.kept.held node }
    ensures missed { IsOkay result ⊎ (out.new.kept.held ≡ out.old.kept.held) }
    ensures same { program.new.kept.held ≡ program.old.kept.held }
{
    let mut ask = |content: &Content| {
        let Content::Program(program) = content else {
            return HANDLE;
        };
        if !out.is_free() {
            return HANDLE;
        }
        match open_machine(alloc, program, node, callers, id) {
            Ok(Some(group)) => fill(alloc, out, Content::Group(group)),
            Ok(None) => NONE,
            Err(_) => MEMORY,
        }
    };
    program.with(alloc, &mut ask)
}

/// Tells C a reply.
pub(crate) fn tell(answer: &mut Answer, outputs: &mut [Leaf], reply: &Reply) -> u32
    ensures entered { IsEntered result }
    ensures told { IsTold reply.now answer.new outputs.old outputs.new }
    ensures room { IsOkay result → answer.new.count ≤ length outputs.new }
    ensures short { IsShort result → length outputs.new < answer.new.count }
{
    write_reply(answer, outputs, reply);
    if answer.count > outputs.len() as u64 {
        SHORT
    } else {
        OK
    }
}

fn call_at(seat: &mut NodeSeat, request: &Request, answer: &mut Answer, outputs: &mut [Leaf]) -> u32
    ensures same { seat.new.id ≡ seat.old.id }
    ensures entered { IsEntered result → (reply : ReplyType) × Adds seat.old.standing seat.new.standing request.now reply
        × (seat.new.last ≡ Some reply) × IsTold reply answer.new outputs.old outputs.new }
    ensures room { IsOkay result → answer.new.count ≤ length outputs.new }
    ensures missed { IsEntered result ⊎ (Sees seat.old.standing seat.new.standing (length seat.new.standing.seen) × (seat.new.last ≡ seat.old.last)) }
    ensures busy { IsBusy result → length seat.new.standing.seen ≡ answer.new.count }
    ensures full { IsFull result → length seat.new.standing.seen ≡ 4294967295 }
    ensures valued { IsValue result → ⊥ }
{
    match seat.try_call(request) {
        Ok(reply) => {
            let status = tell(answer, outputs, &reply);
            seat.keep(reply);
            status
        }
        Err(TryError::Memory) => MEMORY,
        Err(TryError::Full) => FULL,
        Err(TryError::Busy(busy)) => {
            answer.count = busy.0;
            BUSY
        }
    }
}

fn call_in(
    content: &mut Content,
    request: &Request,
    answer: &mut Answer,
    outputs: &mut [Leaf],
) -> u32
    ensures entered { (kind slot : ℕ) (inputs : List LeafType) → IsEntered result → Spells kind slot inputs request.now
        → HeldEnters (Some content.old) (Some content.new) kind slot inputs answer.new outputs.old outputs.new }
    ensures room { IsOkay result → answer.new.count ≤ length outputs.new }
    ensures missed { IsEntered result ⊎ ((content.new ≡ content.old) ⊎ HeldWaits (Some content.old) (Some content.new)) }
    ensures busy { IsBusy result → HeldMisses (Some content.old) (Some content.new) answer.new.count }
    ensures full { IsFull result → HeldMisses (Some content.old) (Some content.new) 4294967295 }
    ensures valued { IsValue result → ⊥ }
{
    match content {
        Content::Seat(seat) => call_at(seat, request, answer, outputs),
        _ => HANDLE,
    }
}

/// One call where the machine is free: 1 is a step, 2 a reset, 3 a save, 4 a restore, and 5 a burst of as many rows as `slot` says.
#[unsafe(no_mangle)]
pub extern "C" fn lus_raw_try_call(
    alloc: Global,
    seat: &mut Handle,
    kind: u32,
    slot: u64,
    inputs: &[Leaf],
    answer: &mut Answer,
    outputs: &mut [Leaf],
) -> u32
    ensures entered { IsEntered result → HeldEnters seat.old.kept.held seat.new.kept.held kind slot inputs.now answer.new outputs.old outputs.new }
    ensures room { IsOkay result → answer.new.count ≤ length outputs.new }
    ensures missed { IsEntered result ⊎ ((seat.new.kept.held ≡ seat.old.kept.held) ⊎ HeldWaits seat.old.kept.held seat.new.kept.held) }
    ensures busy { IsBusy result → HeldMisses seat.old.kept.held seat.new.kept.held answer.new.count }
    ensures full { IsFull result → HeldMisses seat.old.kept.held seat.new.kept.held 4294967295 }
    ensures valued { IsValue result → NoneSpelled kind slot inputs.now × (seat.new.kept.held ≡ seat.old.kept.held) }
{
    answer.kind = 0;
    answer.why = 0;
    answer.count = 0;
    let request = match request_of(alloc, kind, slot, inputs) {
        Ok(Some(request)) => request,
        Ok(None) => return VALUE,
        Err(_) => return MEMORY,
    };
    let Some(mut content) = seat.take(alloc) else {
        return HANDLE;
    };
    let status = call_in(&mut content, &request, answer, outputs);
    seat.put(content);
    status
}

/// The reply to the seat's last call again.
#[unsafe(no_mangle)]
pub extern "C" fn lus_raw_outputs(
    alloc: Global,
    seat: &mut Handle,
    answer: &mut Answer,
    outputs: &mut [Leaf],
) -> u32
    ensures told { IsEntered result → HeldTold seat.old.kept.held answer.new outputs.old outputs.new }
    ensures room { IsOkay result → answer.new.count ≤ length outputs.new }
    ensures short { IsShort result → length outputs.new < answer.new.count }
    ensures none { IsNone result → HeldUntold seat.old.kept.held }
    ensures same { seat.new.kept.held ≡ seat.old.kept.held }
{
    let mut ask = |content: &Content| match content {
        Content::Seat(seat) => match seat.last() {
            Some(reply) => tell(answer, outputs, reply),
            None => NONE,
        },
        _ => HANDLE,
    };
    seat.with(alloc, &mut ask)
}

/// How many entries the seat's node has.
#[unsafe(no_mangle)]
pub extern "C" fn lus_raw_count(alloc: Global, seat: &mut Handle, count: &mut u64) -> u32
    ensures { IsOkay result → HeldSees seat.old.kept.held seat.new.kept.held count.new }
{
    let mut ask = |content: &mut Content| match content {
        Content::Seat(seat) => {
            *count = seat.count();
            OK
        }
        _ => HANDLE,
    };
    seat.with_mut(alloc, &mut ask)
}

/// The seat's number.
#[unsafe(no_mangle)]
pub extern "C" fn lus_raw_number(alloc: Global, seat: &mut Handle, number: &mut u32) -> u32
    ensures number { IsOkay result → HeldNumbered seat.old.kept.held number.new }
    ensures same { seat.new.kept.held ≡ seat.old.kept.held }
{
    let mut ask = |content: &Content| match content {
        Content::Seat(seat) => {
            *number = seat.number();
            OK
        }
        _ => HANDLE,
    };
    seat.with(alloc, &mut ask)
}
