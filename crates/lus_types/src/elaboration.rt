//! Expressions and equations of the source become those of the program, with their types.

mod arrangement;
mod equations;
mod expressions;
mod forms;
mod kinds;
mod operands;
mod operators;
mod parts;
mod purity;

pub use equations::{equation, misfits};
pub use forms::{clock_variable, misclocked, test};
pub use kinds::{member, same, value_kind};
pub use purity::memory;
