//! The types that expressions plainly have, also in sources whose names or types are wrong.
#![tactic(auto)]

mod forms;

pub use forms::{enumeration_of, output_type, plain_type};
