//! Which clocks are present, by one look at the newest test: where the entries of a row stand on their clocks, the older tests
//! hold wherever it does.

ghost use Rattle.std.specs.Prelude.{◌≡◌, map};
ghost use Rattle.lus_classes.specs.Classes.{clock_in};
ghost use Rattle.lus_classes.specs.Steps.{is_on_row};
ghost use Rattle.lus_classes.specs.Looks.{newest, short_of};
ghost use Rattle.lus_instructions.specs.Executed.{holds_in};

use lus_instructions::{Class, Held, found_at};
use lus_program::Test;

/// Whether a test holds.
#[inline(always)]
pub fn holds<T: Held>(test: &Test, row: &[T]) -> bool
    ensures { result ≡ holds_in test.now (map T.entry row.now) }
{
    match found_at(row, test.variable as usize) {
        Some(held) => held.is_constructor(test.constructor),
        None => false,
    }
}

/// Whether the newest test of a clock holds, if it has one.
#[inline(always)]
pub fn is_on<T: Held>(test: Option<Test>, row: &[T]) -> bool
    ensures { result ≡ is_on_row (newest test) (map T.entry row.now) }
{
    match test {
        Some(newest) => holds(&newest, row),
        None => true,
    }
}

/// Whether the newest test of a variable's clock holds, if it has one.
pub fn is_present<T: Held>(class: &Class, row: &[T], variable: usize) -> bool
    ensures { result ≡ is_on_row (clock_in (short_of class.now) variable) (map T.entry row.now) }
{
    match class.tests.get(variable) {
        Some(test) => is_on(*test, row),
        None => true,
    }
}
