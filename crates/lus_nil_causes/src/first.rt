//! First values, by types.

use lus_faults::value_of;
use lus_plain_types::plain_type;
use lus_syntax::{Expr, Node, Tree};

/// A value of the type of an expression, where that is easily seen: `0`, `false` or a constructor; none of a structure.
pub fn first_value<'t>(tree: &'t Tree, node: &'t Node, expr: &Expr) -> Option<&'t str> {
    value_of(plain_type(tree, node, expr)?)
}
