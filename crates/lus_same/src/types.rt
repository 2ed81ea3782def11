//! Declared types compared.

ghost use Rattle.std.specs.Prelude.{◌≡◌, IsTrue, map};
ghost use Rattle.lus_program.specs.View.{declared_of, field_of};
ghost use Rattle.lus_same.specs.Nameless.{nameless_field, nameless_type};

use lus_program::{Declared, Field};

/// Whether fields are the same but for their names, one by one.
fn same_fields(left: &[Field], right: &[Field]) -> bool
    ensures { IsTrue result → map nameless_field (map field_of left.now) ≡ map nameless_field (map field_of right.now) }
{
    if left.len() != right.len() {
        return false;
    }
    for (field, other) in left.iter().zip(right) {
        if field.kind != other.kind {
            return false;
        }
    }
    true
}

/// Whether two declared types are one but for their names.
#[tactic(auto, using(crate::proofs::Counting::as_many))]
fn same_type(left: &Declared, right: &Declared) -> bool
    ensures { IsTrue result → nameless_type (declared_of left.now) ≡ nameless_type (declared_of right.now) }
{
    match (left, right) {
        (Declared::Alias(kind), Declared::Alias(other)) => kind == other,
        (Declared::Enumeration(names), Declared::Enumeration(others)) => names.len()
            == others.len(),
        (Declared::Structure(fields), Declared::Structure(others)) => same_fields(fields, others),
        _ => false,
    }
}

/// Whether declared types are the same but for their names, one by one.
pub fn same_types(left: &[Declared], right: &[Declared]) -> bool
    ensures { IsTrue result → map nameless_type (map declared_of left.now) ≡ map nameless_type (map declared_of right.now) }
{
    if left.len() != right.len() {
        return false;
    }
    for (item, other) in left.iter().zip(right) {
        if !same_type(item, other) {
            return false;
        }
    }
    true
}
