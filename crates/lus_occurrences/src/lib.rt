//! The names of a source, and the declarations that they stand for: what definition, references, highlights, hover, completion and
//! rename ask.
//!
//! They are found by tokens, so that a text which is being typed has them too. Each name has a role by the tokens round it (`scanner`),
//! each declaration a scope, and each other name the declaration of its scope (`resolving`). What is found is a proposal: a renamed
//! source is only given where the program stays the same.
#![tactic(auto)]

mod describing;
mod kinds;
mod names;
mod resolving;
mod role;
mod scanner;
mod scopes;
mod slots;

pub use kinds::{Clock, Kind};
pub use names::{Declaration, Names, Occurrence, Use, names_of};
pub use role::Declared;
pub use slots::{Opening, Slot};
