//! Tests of what is from machines on: calls at nodes that are shared and callers on threads, over both kinds of instances, and what a host
//! relies on there; hosts of many instances; renamings; runs in which callers overlap, and the command line over devices that fail. In
//! one crate above them all, since a crate with tests is proved twice, and its start is as dear as ten tests. What the program makes of
//! scripts, of lines and of journals is tested by `rows/` and `checks/`, of which nothing is proved anew.
#![tactic(auto)]

mod calls;
#[cfg(test)]
mod commands;
#[cfg(test)]
mod costs;
#[cfg(test)]
mod counters;
#[cfg(test)]
mod held;
#[cfg(test)]
mod logs;
#[cfg(test)]
mod meeting;
#[cfg(test)]
mod overlap;
mod promises;
#[cfg(test)]
mod renames;
#[cfg(test)]
mod runs;
#[cfg(test)]
mod seats;
#[cfg(test)]
mod turns;

pub use calls::{call_both, found_taken};
pub use promises::{
    call_machine, call_seat, call_shared, close_seats, count_entries, meet_seats, run_served,
};
