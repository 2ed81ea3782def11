//! What code is followed in.

use crate::class::Class;
use std::alloc::Global;

/// The class whose code is followed, all classes, and within which depth calls are nested.
#[derive(Drop)]
pub struct Setting<'a> {
    pub alloc: Global,
    pub classes: &'a [Class],
    pub class: &'a Class,
    pub depth: usize,
}
