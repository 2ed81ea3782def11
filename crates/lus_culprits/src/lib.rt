//! What is wrong with a call that is refused, in a sentence that names the culprit: an input, a field, a constructor, a kind of call.
//! Nothing is decided here: what is a call, `lus_scripts` says.
#![tactic(auto)]

mod calls;
mod items;
mod json;
mod misfits;
mod names;
mod objects;
mod sentences;
mod types;

pub use calls::{explain_call, general_sentence};
pub use items::{Scope, push_placed, refused_place};
pub use json::{fault_at, push_unexpected};
pub use misfits::push_shape;
pub use names::{
    input_names, names_of, node_names, push_count, push_name, push_names, push_unknown,
};
pub use objects::{push_call_keys, push_keys};
pub use sentences::sentence;
pub use types::{inputs_of, push_cell};
