//! Flat code: the steps of classes as instructions.

mod flattening;
mod fronts;
mod operands;
mod parts;
mod playing;
mod room;

pub use parts::parts_of;
