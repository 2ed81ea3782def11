//! What hosts in C hold behind handles: programs, seats, journals and live instances.
#![tactic(auto)]

mod content;
mod handle;
mod node_seat;
mod seat_group;

pub use content::Content;
pub use handle::{HANDLE, Handle};
pub use node_seat::{HeldSeat, NodeSeat};
pub use seat_group::{ClosedNode, Ended, Opening, SeatGroup};
