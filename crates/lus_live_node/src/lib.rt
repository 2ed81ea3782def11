//! An instance whose entries are handed out one by one, and not kept.
#![tactic(auto)]

mod live_node;

pub use live_node::LiveNode;
pub use lus_replay::Verdict;
