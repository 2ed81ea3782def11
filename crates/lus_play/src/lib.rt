//! Lines that are played as calls: each is read, its call is made, and its entry is written in a log before its reply is told, at once
//! or where the log is synced once it was synced with it.
#![tactic(auto)]

mod entering;
mod error;
mod faults;
mod parts;
mod playing;
mod settling;

pub use error::PlayError;
pub use parts::{Calls, Reacts, Speaks};
pub use playing::{Score, play};
pub use settling::{hold, settle, write_bytes};
