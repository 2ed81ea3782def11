//! What there is to say of a refused source: what is wrong, where it comes from, and how its text would be accepted.
#![tactic(auto)]

mod comments;
mod edit;
mod exchanged;
mod extent;
mod finding;
mod lines;
mod links;
mod sought;
mod spelling;
mod types;
mod uses;
mod within;

pub use comments::{Comment, comments_in};
pub use edit::{Edit, edited, edited_lines, joined};
pub use exchanged::{Exchanged, exchange_in, is_fixed};
pub use extent::{extent_of, label_span, start_of};
pub use finding::{Finding, Position, Related};
pub use lines::{Lines, bytes_at, lines_of, offset_of, place_at, slice_of};
pub use links::{Link, calls_of, uses_of};
pub use sought::{Role, Sought, Variable, variable_named};
pub use spelling::{are_near, nearest};
pub use types::{Plain, declared_type, resolved, value_of};
pub use uses::{replacing, uses_at_once};
pub use within::expressions_in;
