//! Records of comma-separated values (CSV): lines that are steps of a node under a head line, and replies as records of outputs.
#![tactic(auto)]

mod calls;
mod cells;
mod columns;
mod heads;
mod inputs;
mod outputs;
mod replies;
mod steps;

pub use calls::RecordCalls;
pub use cells::cells_of;
pub use columns::all_columns;
pub use heads::{head_of, head_reason, read_head};
pub use inputs::place_of;
pub use outputs::{bytes_of, record_bytes, row_cells, write_head};
pub use replies::RecordReplies;
pub use steps::{step_of, step_reason};
