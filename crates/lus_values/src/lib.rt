//! Values of streams, what operators give, and out of memory.
#![tactic(auto)]

mod application;
mod equality;
mod fitting;
mod memory;
mod names;
mod operator;
mod row;
mod test;
mod text;
mod value;

pub use application::{any_nil, apply, try_apply};
pub use equality::same;
pub use fitting::fits_op;
pub use memory::Memory;
pub use names::Names;
pub use operator::{Op, Operator, Shape};
pub use row::{Items, Row, copy_entry};
pub use test::Test;
pub use text::{print, push_value};
pub use value::{Value, copy};
