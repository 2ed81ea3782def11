//! What C calls: each function is a call of `lus.h`, whose `lus.c` tests for null first.
#![tactic(auto)]

mod calls;
mod closing;
mod compiling;
mod explaining;
mod holding;
mod journals;
mod live;
mod programs;
mod status;
mod texts;
