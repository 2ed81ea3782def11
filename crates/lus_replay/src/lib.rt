//! Journals of an instance, replayed: each line's request is asked again, and the line that is right is compared with it.
#![tactic(auto)]

mod asked;
mod line;
mod replaying;

pub use line::{Verdict, replay_line};
pub use replaying::{Ending, Replayed, replay};
