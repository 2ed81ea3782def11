//! What `fby` and `when` may follow.

ghost use Rattle.std.specs.Prelude.{◌≡◌};
ghost use Rattle.lus_syntax.specs.View.{expression_seen};
ghost use Rattle.lus_spelling.specs.Reading.{is_primary};

use lus_syntax::Expr;

/// Whether `fby` or `when` may stand after an expression.
pub fn primary_shape(tree: &Expr) -> bool
    ensures { result ≡ is_primary (expression_seen tree.now) }
{
    !matches!(
        tree,
        Expr::When(_, _) | Expr::Unary(_, _, _) | Expr::Binary(_, _, _) | Expr::If(_, _, _, _)
    )
}
