//! Many instances of a node in one process, which lines call by name: each call is answered by its entry, and entries are replayed, of a
//! log that is gone on in or among the calls.
#![tactic(auto)]

mod auditing;
mod error;
mod host;
mod hosted;
mod hosting;
mod instances;
mod laws;
mod named_entry;
mod observer;
mod recovering;
mod settling;
mod telling;
mod turns;
mod words;

pub use auditing::{LogReport, audit_log};
pub use error::HostError;
pub use hosting::{host_behind, host_log, host_many};
pub use laws::logs_are_joined;
pub use lus_bursts;
pub use lus_lawful;
pub use lus_live_instance;
pub use lus_sessions;
pub use named_entry::NamedEntry;
pub use observer::LogObserver;
pub use recovering::{Recovered, recover_log};
pub use telling::{LogLines, Tells};
