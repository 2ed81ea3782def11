//! Numbers become requests; replies and entries become numbers.
ghost use Rattle.std.specs.Prelude.{◌≡◌, Some, IfOk, IfSome};
ghost use Rattle.lus_requests.specs.declared.request.Request.{Request as RequestType};
ghost use Rattle.lus_leaves.specs.Requests.{Spells, RequestFits, why_code, IsTold, IsAsked, EntryIsTold};

use crate::leaf::Leaf;
use crate::reading::{row_of, rows_of};
use crate::writing::{write_row, write_rows};
use lus_requests::{Entry, Reply, Request, Rows, Why};
use lus_values::Memory;
use std::alloc::Global;

/// What a call was answered.
#[repr(C)]
pub struct Answer {
    /// 1 for outputs, 2 for done, 3 for refused, 4 for the rows of a burst; 0 where there is none.
    pub kind: u32,
    /// Why it was refused: 1 shape, 2 presence, 3 fault, 4 no save.
    pub why: u32,
    /// How many leaves the outputs are; of a busy machine how many entries it has.
    pub count: u64,
}

/// One entry.
#[repr(C)]
pub struct EntryOut {
    pub caller: u32,
    /// As of a call.
    pub request: u32,
    /// The slot, or how many rows a burst has.
    pub slot: u64,
    /// As of an answer.
    pub reply: u32,
    pub why: u32,
    /// How many leaves the inputs and the outputs are.
    pub inputs: u64,
    pub outputs: u64,
}

/// The request that these numbers spell, or nothing: 1 is a step, 2 a reset, 3 a save, 4 a restore, and 5 a burst of as many rows as
/// `slot` says.
pub fn request_of(
    alloc: Global,
    kind: u32,
    slot: u64,
    inputs: &[Leaf],
) -> Result<Option<Request>, Memory>
    ensures spelled { IfOk result (λ r. IfSome r (λ q. Spells kind slot inputs.now q × RequestFits q)) }
    ensures only { IfOk result (λ r. (q : RequestType) → RequestFits q → Spells kind slot inputs.now q → r ≡ Some q) }
{
    match kind {
        1 => match row_of(alloc, inputs)? {
            Some(row) => Ok(Some(Request::Step(row))),
            None => Ok(None),
        },
        2 => Ok(Some(Request::Reset)),
        3 => Ok(Some(Request::Save(slot))),
        4 => Ok(Some(Request::Restore(slot))),
        5 => match rows_of(alloc, inputs, slot)? {
            Some(rows) => Ok(Some(Request::Burst(Rows::new(rows)))),
            None => Ok(None),
        },
        _ => Ok(None),
    }
}

/// The number by which C knows why a request was refused.
fn number_of(why: Why) -> u32
    ensures { result ≡ why_code why }
{
    match why {
        Why::Shape => 1,
        Why::Presence => 2,
        Why::Fault => 3,
        Why::NoSave => 4,
    }
}

/// Writes a reply, its outputs as far as the array has room.
pub fn write_reply(answer: &mut Answer, outputs: &mut [Leaf], reply: &Reply)
    ensures { IsTold reply.now answer.new outputs.old outputs.new }
{
    answer.why = 0;
    answer.count = 0;
    match reply {
        Reply::Outputs(row) => {
            answer.kind = 1;
            answer.count = write_row(outputs, row);
        }
        Reply::Rows(rows) => {
            answer.kind = 4;
            answer.count = write_rows(outputs, rows.items());
        }
        Reply::Done => answer.kind = 2,
        Reply::Refused(why) => {
            answer.kind = 3;
            answer.why = number_of(*why);
        }
    }
}

/// Writes a request, its inputs as far as the array has room.
fn write_request(out: &mut EntryOut, inputs: &mut [Leaf], request: &Request)
    ensures { IsAsked request.now out.new inputs.old inputs.new }
{
    out.slot = 0;
    out.inputs = 0;
    match request {
        Request::Step(row) => {
            out.request = 1;
            out.inputs = write_row(inputs, row);
        }
        Request::Reset => out.request = 2,
        Request::Save(slot) => {
            out.request = 3;
            out.slot = *slot;
        }
        Request::Restore(slot) => {
            out.request = 4;
            out.slot = *slot;
        }
        Request::Burst(rows) => {
            out.request = 5;
            out.slot = rows.items().len() as u64;
            out.inputs = write_rows(inputs, rows.items());
        }
    }
}

/// Writes an entry, its inputs and its outputs as far as the arrays have room.
pub fn write_entry(out: &mut EntryOut, inputs: &mut [Leaf], outputs: &mut [Leaf], entry: &Entry)
    ensures { EntryIsTold entry.now out.new inputs.old inputs.new outputs.old outputs.new }
{
    let mut answer = Answer {
        kind: 0,
        why: 0,
        count: 0,
    };
    write_request(out, inputs, &entry.request);
    write_reply(&mut answer, outputs, &entry.reply);
    let Answer { kind, why, count } = answer;
    out.caller = entry.caller;
    out.reply = kind;
    out.why = why;
    out.outputs = count;
}
