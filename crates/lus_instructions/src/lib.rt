//! Classes of nodes: for each node the steps of an instant, the cells and first-flags that are kept, and the calls. Instructions:
//! what the steps compute, one value after another; what operators give, for words and for values; and following instructions over
//! rows of either.
#![tactic(auto)]

mod class;
mod counting;
mod entries;
mod formula;
mod held;
mod instruction;
mod layout;
mod located;
mod located_machine;
mod locating;
mod on_located;
mod on_values;
mod one_row;
mod operation;
mod place;
mod seen;
mod stop;
mod word;
pub mod words;

pub use class::{Argument, Call, Cell, Class, Part, Step, Target, test_of};
pub use entries::copy_value;
pub use formula::{Atom, Formula};
pub use held::Held;
pub use instruction::{Instruction, Operand};
pub use layout::Layout;
pub use located::Located;
pub use located_machine::act_in_row;
pub use locating::locate;
pub use on_located::act_located;
pub use operation::operate;
pub use place::{entry_at, fetch, found_at, read};
pub use seen::{Seen, see};
pub use stop::Stop;
pub use word::word_of;
