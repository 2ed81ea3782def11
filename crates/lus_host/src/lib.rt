//! Checks of programs, runs of programs with scripts, and all else that a host of compiled nodes calls.
#![tactic(auto)]

mod answering;
mod checking;
mod error;
mod laws;
mod preparing;
mod program;
mod running;
mod text;

pub use answering::{Fits, run_callers};
pub use checking::check;
pub use error::RunError;
pub use laws::headline;
pub use lus_callers;
pub use lus_callers::lus_machine::{
    CallError, Cost, Field, Formal, Machine, NodeId, Program, compile,
};
pub use lus_callers::lus_shared::{
    Busy, Held, LockedNode, LockedSeat, Seat, SeatNode, Shared, Strangers, TryError,
};
pub use lus_callers::{Call, Caller, Gate, HostError, Journals, OpenGate, lus_machine};
pub use lus_devices::{
    Failure, Input, Journal, Output, ReadError, Sink, Source, WriteError, read_at_most, write_all,
    write_journals,
};
pub use lus_requests::{Entry, Reply, Request, Rows, Why};
pub use lus_scripts::{Instance, ScriptRefusal, Scripts};
pub use lus_syntax::MOST_BYTES;
pub use lus_values::{Memory, Names, Row, Value, print};
pub use preparing::read_scripts;
pub use running::run;
pub use text::text_of;
