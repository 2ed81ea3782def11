//! The gate of proposals: which words a proposal keeps of its source, and whether parentheses group as the operators bind.
#![tactic(auto)]

mod binding;
mod keeping;
mod words;

pub use binding::{
    Operator, groups, is_operator, may_end, operator_before, operators_in, strength_behind,
};
pub use keeping::{keeps, rearranges};
pub use words::count;
