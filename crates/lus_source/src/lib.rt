//! What a source means, and what it declares, checked and resolved before any right side is elaborated.
#![tactic(auto)]

mod counts;
mod declarations;
mod entries;
mod fault;
mod left;
mod loopless;
mod named;
mod names;
mod naming;
mod nodes;
mod places;
mod scope;
mod signatures;
mod sizes;
mod tabled;
mod types;
mod uses;
mod using;
mod values;

pub use counts::{Counted, check_counts};
pub use entries::{Constructor, Placed, Signature};
pub use fault::{Cause, Fault, Member, Rejected, Whole};
pub use loopless::{Loopless, check_recursion};
pub use named::{Named, check_names};
pub use places::{Places, Spaces, find};
pub use scope::{Scope, Tables, field};
pub use sizes::check_sizes;
pub use tabled::{Tabled, enter, tables};
pub use types::kind_of_name;
pub use values::literal;
