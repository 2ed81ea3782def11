//! What callers are to do.

use crate::request::Request;

/// A request to one of the instances, which has this place among them, from 0.
#[derive(Drop)]
pub struct Call {
    pub on: usize,
    pub request: Request,
}

/// A caller, with its calls in their order.
#[derive(Drop)]
pub struct Caller {
    pub calls: Vec<Call>,
}
