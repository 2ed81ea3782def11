//! Which signals are drawn.

/// Which signals of a node are drawn.
#[derive(Clone, Copy)]
pub enum Selection<'a> {
    /// Its inputs and outputs.
    Formals,
    /// Those of these names, with commas between them: of the node's variables, or behind the names of called nodes, with dots between
    /// them, of theirs. A last word `*` names all variables of its node.
    Named(&'a str),
}
