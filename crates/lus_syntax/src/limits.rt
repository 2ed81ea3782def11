//! The limits of the language, each named once.

/// The most bytes of a source.
pub const MOST_BYTES: usize = 1048576;

/// How deep an expression may be.
pub const MOST_DEPTH: u32 = 100;

/// The most types, constants and nodes of a source, each.
pub const MOST_DECLARATIONS: usize = 1000;

/// The most variables of a node.
pub const MOST_VARIABLES: usize = 1000;

/// The most constructors of an enumeration.
pub const MOST_CONSTRUCTORS: usize = 256;

/// The most fields of a structure.
pub const MOST_FIELDS: usize = 64;

/// The most leaves of a type.
pub const MOST_LEAVES: usize = 1024;

/// How deep structures may nest.
pub const MOST_NESTING: usize = 64;

/// How deep calls may nest.
pub const MOST_CALLS_DEEP: usize = 64;

/// The most state cells of a node.
pub const MOST_CELLS: u32 = 100000;

/// The most parts of a program, which no source within its limit of bytes passes.
pub const MOST_PARTS: usize = 1048576;
