//! Why requests were refused, in words, as far as a request alone shows it: which input, which slot.
#![tactic(auto)]

mod inputs;
mod refusals;

pub use lus_culprits;
pub use refusals::{note_of, push_refusal, push_unfit, why_word};
