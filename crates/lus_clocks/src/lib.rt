//! Checks that a program is on clocks, and that nil stands in it only where flags allow.
#![tactic(auto)]

mod call;
mod checking;
mod clock;
mod declared;
mod equation;
mod expression;
mod fault;
mod flag;
mod flagging;
mod formals;
mod passes;
mod raising;
mod required;
mod tests;
mod values;

pub use call::{argument_clock, base_of};
pub use checking::clocks_fit;
pub use clock::{NewestTest, clock_on};
pub use fault::{Misplaced, Needed, OffClock, Unflagged, Wanting};
pub use flagging::flags_fit;
pub use formals::{inputs_at, variables_at};
pub use lus_streams;
pub use passes::{Clocked, Initialised, check_clocks, check_nil, judge_clocks, judge_nil};
pub use tests::{Tests, tests_of};
