//! Journals that are audited: each is replayed on a new instance of its node, and may be observed meanwhile.
#![tactic(auto)]

mod auditing;
mod error;
mod head;
mod observed;
mod observer;
mod texts;

pub use auditing::{Report, audit};
pub use error::AuditError;
pub use head::begins_journals;
pub use lus_lines::Buffered;
pub use observer::{Observer, Observers, Unobserved};
