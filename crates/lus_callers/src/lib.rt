//! Callers on threads of their own, which call the instances of a program's nodes.
#![tactic(auto)]

mod caller;
mod close;
mod columns;
mod condition;
mod gate;
mod jobs;
mod open;
mod run;
mod shares;
mod threads;

pub use condition::fit;
pub use gate::{Gate, OpenGate};
pub use lus_requests::{Call, Caller};
pub use lus_shared;
pub use lus_shared::lus_machine;
pub use run::{Journals, run_callers};
pub use threads::HostError;
