//! Messages in frames, as editors and their servers exchange them: a head that says how many bytes follow, and these.
#![tactic(auto)]

mod ahead;
mod error;
mod laws;
mod reading;
mod writing;

pub use ahead::Ahead;
pub use error::FrameError;
pub use laws::read_back;
pub use reading::{MOST_MESSAGE_BYTES, read_frame};
pub use writing::{push_frame, write_frame};
