//! What a handle holds.
ghost use Rattle.std.specs.Prelude.{◌≡◌};

use crate::node_seat::{HeldSeat, NodeSeat};
use crate::seat_group::{ClosedNode, SeatGroup};
use lus_live_node::LiveNode;
use lus_shared::lus_machine::Program;
use std::alloc::Global;
use std::sync::Arc;

/// What is behind a handle of C's.
#[derive(Drop)]
pub enum Content {
    Program(Arc<Program>),
    Seat(NodeSeat),
    /// A seat that has the machine to itself.
    Held(HeldSeat),
    /// Seats of one node, on their way to or from an array of C's.
    Group(SeatGroup),
    Journal(ClosedNode),
    /// An instance whose entries are handed out.
    Live(LiveNode),
}

impl Content {
    /// What is in a box while its content is elsewhere.
    pub fn none(alloc: Global) -> Content {
        Content::Group(SeatGroup::empty(alloc))
    }
}

/// Takes what may go to another thread.
fn send<T: Send>(value: T) -> T
    ensures { result ≡ value }
{
    value
}

/// A seat as a handle holds it, which may go to another thread with its handle: that this is proved is all that it is for.
pub fn sent(seat: NodeSeat) -> NodeSeat
    ensures { result ≡ seat }
{
    send(seat)
}

/// The same of an instance whose entries are handed out.
pub fn sent_live(live: LiveNode) -> LiveNode
    ensures { result ≡ live }
{
    send(live)
}
