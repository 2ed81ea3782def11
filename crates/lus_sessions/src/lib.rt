//! Runs of an instance: lines are played on it as calls, behind what its journal has, which is read and replayed first. How lines are read,
//! entries are journaled and replies are told is chosen by values.
#![tactic(auto)]

mod calls;
mod driving;
mod error;
mod journal;
mod laws;
mod recovering;
mod replies;
mod silent;
mod writes;

pub use calls::JsonCalls;
pub use driving::drive;
pub use error::RecoveryError;
pub use journal::{JournalLines, callers};
pub use laws::journals_are_joined;
pub use lus_play::{Calls, PlayError, Reacts, Score, Speaks};
pub use recovering::{Start, recover};
pub use replies::JsonReplies;
pub use silent::{Nowhere, Silent};
pub use writes::Writes;
