//! Streams of a program: clocks, values, nil and causality as definitions, and the laws that they obey.
#![tactic(auto)]

ghost use Rattle.lus_streams.specs.Laws.{CausalStreamsAreUnique, FlagsHoldInWorlds};

mod resolved;

pub use resolved::{calls_have_outputs, needs_variables};

/// For each node of a causal program on clocks, and for each list of inputs, there is at most one world: one row of
/// variables at each instant, and one world of each called node.
pub fn streams_are_unique()
    ensures { CausalStreamsAreUnique }
{}

/// Where no input of a node has nil, in its text and in that of every node that it calls, directly or round, an expression of
/// flag 0 is nil nowhere, and one of flag 1 at most at the first instant of its clock.
pub fn flags_hold()
    ensures { FlagsHoldInWorlds }
{}
