//! The limits of scripts, each named once. Their bytes are as many at most as those of a source.

/// The most instances.
pub const MOST_INSTANCES: usize = 256;

/// The most callers.
pub const MOST_CALLERS: usize = 64;

/// The most calls of a caller.
pub const MOST_CALLS: usize = 10000;

/// The most bytes of a name.
pub const MOST_NAME_BYTES: usize = 64;
