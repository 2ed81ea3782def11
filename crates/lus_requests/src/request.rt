//! What callers ask of an instance, and what it replies.

ghost use Rattle.std.specs.Prelude.{◌≡◌, IfOk};

use crate::rows::Rows;
use lus_values::{Memory, Row};
use std::alloc::Global;

/// What a caller asks of an instance.
#[derive(Drop)]
pub enum Request {
    /// The next instant, with the values of the node's inputs.
    Step(Row),
    /// Forgets all instants.
    Reset,
    /// Records in a slot the instants so far.
    Save(u64),
    /// Goes back to what a slot records.
    Restore(u64),
    /// Several instants, one behind another: all of them or none.
    Burst(Rows),
}

/// Why a request was refused.
#[derive(Clone, Copy, PartialEq, Eq, Debug)]
pub enum Why {
    /// The inputs aren't as many as the node's, or one is no value of its type; or there is no slot of this
    /// number, or a burst has more rows than it may.
    Shape,
    /// An input isn't present exactly where its clock is.
    Presence,
    /// The instant has no value: an expression faults.
    Fault,
    /// Nothing was saved in the slot.
    NoSave,
}

/// What an instance replies.
#[derive(Drop)]
pub enum Reply {
    /// The values of the node's outputs at the instant.
    Outputs(Row),
    /// Those at each instant of a burst.
    Rows(Rows),
    Done,
    Refused(Why),
}

/// One caller's request, and the reply to it.
#[derive(Drop)]
pub struct Entry {
    pub caller: u32,
    pub request: Request,
    pub reply: Reply,
}

impl Request {
    /// An equal request.
    pub fn copy(&self, alloc: Global) -> Result<Request, Memory>
        ensures { IfOk result (λ r. r ≡ self.now) }
    {
        match self {
            Request::Step(inputs) => Ok(Request::Step(inputs.copy(alloc)?)),
            Request::Reset => Ok(Request::Reset),
            Request::Save(slot) => Ok(Request::Save(*slot)),
            Request::Restore(slot) => Ok(Request::Restore(*slot)),
            Request::Burst(rows) => Ok(Request::Burst(rows.copy(alloc)?)),
        }
    }
}

impl Reply {
    /// An equal reply.
    pub fn copy(&self, alloc: Global) -> Result<Reply, Memory>
        ensures { IfOk result (λ r. r ≡ self.now) }
    {
        match self {
            Reply::Outputs(outputs) => Ok(Reply::Outputs(outputs.copy(alloc)?)),
            Reply::Rows(rows) => Ok(Reply::Rows(rows.copy(alloc)?)),
            Reply::Done => Ok(Reply::Done),
            Reply::Refused(why) => Ok(Reply::Refused(*why)),
        }
    }
}
