//! Comparisons of numbers.

ghost use Rattle.std.specs.Prelude.{◌≡◌, [], ◌∷◌, IfSome, IsTrue, Some, not};
ghost use Rattle.lus_values.specs.Operators.{computed, rule};
ghost use Rattle.lus_values.specs.Values.{bool, int};

use lus_values::Op;

/// What a comparison of numbers gives, if the operator compares.
pub(crate) fn of_numbers(op: Op, left: i64, right: i64) -> Option<bool>
    ensures { IfSome result (λ given. computed (rule op) (int left ∷ int right ∷ []) ≡ Some (bool given)) }
{
    match op {
        Op::Equal => Some(left == right),
        Op::NotEqual => Some(left != right),
        Op::Less => Some(left < right),
        Op::AtMost => Some(left <= right),
        Op::Greater => Some(left > right),
        Op::AtLeast => Some(left >= right),
        _ => None,
    }
}

/// Whether a comparison of numbers comes out the other way than so.
pub(crate) fn is_other(op: Op, left: i64, right: i64, holds: bool) -> bool
    ensures { IsTrue result → computed (rule op) (int left ∷ int right ∷ []) ≡ Some (bool (not holds)) }
{
    match of_numbers(op, left, right) {
        Some(given) => given == !holds,
        None => false,
    }
}
