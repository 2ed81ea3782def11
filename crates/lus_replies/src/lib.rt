//! Replies as objects of JSON, with outputs by their names.
#![tactic(auto)]

mod reply;
mod value;

pub use reply::push_reply;
