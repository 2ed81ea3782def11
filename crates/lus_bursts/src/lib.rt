//! Calls that come in bursts, and logs that are synced once for each burst.
#![tactic(auto)]

mod syncing;
mod waiting;

pub use syncing::Syncs;
pub use waiting::{Counted, Waiting};
