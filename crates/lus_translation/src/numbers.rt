//! Numbers of what is counted.

ghost use Rattle.std.specs.Prelude.{◌≡◌, ◌+◌, IfOk};

use lus_values::Memory;

/// A count as a number, if it is one.
pub fn number_of(count: usize) -> Result<u32, Memory>
    ensures { IfOk result (λ n. n ≡ count) }
{
    match u32::try_from(count) {
        Ok(number) => Ok(number),
        Err(_) => Err(Memory),
    }
}

/// The next number, if there is one.
pub fn next(number: u32) -> Result<u32, Memory>
    ensures { IfOk result (λ n. n ≡ number + 1) }
{
    number.checked_add(1).ok_or(Memory)
}
