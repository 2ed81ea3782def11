//! The public calls of every crate that a host may name, each called once with the types of its arguments and of its answer written
//! out: a signature that changes doesn't compile here. Where a call has a condition, its test comes before it.
#![tactic(auto)]

mod commands;
mod hosts;
mod machines;
mod objects;
mod sharing;
mod sources;
#[cfg(test)]
mod tests;
mod values;

pub use commands::{run_command, run_file};
pub use hosts::{check_bytes, count_wants, read_and_fit, run_bytes, run_scripts};
pub use machines::{
    call_machine, compile_text, formal_test, formals, kind_of_reply, new_machine, requests,
};
pub use objects::{fresh_object, state_cells, step_object};
pub use sharing::{
    call_node, close_locked, close_node, hold_seat, meet_and_count, open_locked, open_node,
    open_seats, try_seat,
};
pub use sources::{
    checked_clocks, checked_nil, checked_types, counts, normal_of, ordered_of, places, refused_at,
    tokens_of, translated, tree_of,
};
pub use values::{applied, kind_of_value, one_row, value_and_text};
