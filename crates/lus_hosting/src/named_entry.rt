//! An entry of an instance that has a name.

use lus_requests::Entry;

/// An entry of the instance of this name.
#[derive(Drop)]
pub struct NamedEntry {
    pub instance: String,
    pub entry: Entry,
}
