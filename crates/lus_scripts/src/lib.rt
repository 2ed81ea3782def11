//! Scripts: the instances of a program's nodes, and the callers with their calls, that bytes of JSON are.
#![tactic(auto)]

mod form;
mod known;
mod limits;
mod names;
mod reading;
mod refusal;
mod request;
mod scripts;
mod value;

pub use form::{as_list, is_name, two_members};
pub use limits::{MOST_CALLERS, MOST_CALLS, MOST_INSTANCES, MOST_NAME_BYTES};
pub use reading::read_scripts;
pub use refusal::ScriptRefusal;
pub use request::read_request;
pub use scripts::{Instance, Scripts};
pub use value::read_item;
