//! How values lie in words.

use lus_program::Kind;

/// How a value of a type lies in words: in one, where the type is no structure, else in those of its fields, one behind
/// another.
#[derive(Drop)]
pub enum Layout {
    Word(Kind),
    Parts(Vec<Layout>),
}
