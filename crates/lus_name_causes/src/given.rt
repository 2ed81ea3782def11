//! Where a fault of names is.

use lus_syntax::Tree;
use std::alloc::Global;

/// The source of a fault of names, and its tree.
#[derive(Clone, Copy)]
pub struct Given<'t> {
    pub alloc: Global,
    pub source: &'t str,
    pub tree: &'t Tree,
}
