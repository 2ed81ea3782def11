//! Why a program isn't on clocks, or may be nil where it must not be.

ghost use Rattle.std.specs.Prelude.{◌≡◌, is_ok};

use crate::clock::NewestTest;
use lus_syntax::{Place, Refusal, RefusalNumber};
use lus_values::Memory;

/// Why something isn't on its clock.
#[derive(Clone, Copy, PartialEq, Eq, Debug)]
pub enum OffClock {
    /// A variable is declared with a test that doesn't follow the clock of the test's variable.
    Declared,
    /// It is on the first clock, and the second is wanted.
    Other(Option<NewestTest>, Option<NewestTest>),
    /// A variable on the left isn't on the clock of the right side.
    Left(Option<NewestTest>),
    /// An output of this node isn't on the first clock as the call's base is the second.
    Output(u32, Option<NewestTest>, Option<NewestTest>),
}

/// A place that isn't on its clock.
#[derive(Clone, Copy, PartialEq, Eq, Debug)]
pub struct Misplaced {
    pub place: Place,
    pub why: OffClock,
}

impl Misplaced {
    ghost use Rattle.std.specs.Prelude.{◌≡◌};

    /// The refusal at this place.
    pub fn refusal(self) -> Refusal
        ensures { result.number ≡ RefusalNumber.Clock }
    {
        Refusal::new(RefusalNumber::Clock, self.place.line, self.place.column)
    }
}

/// What mustn't be nil.
#[derive(Clone, Copy, PartialEq, Eq, Debug)]
pub enum Needed {
    /// A literal.
    Literal,
    /// The operand of `pre`.
    Delayed,
    /// The variable of this place that is tested by `when`, by `merge`, or by a declared clock.
    Tested(u32),
    /// A branch of a merge over the variable of this place.
    Branch(u32),
    /// An argument of a call of this node.
    Argument(u32),
    /// The input or the output of this place.
    Formal(usize),
}

/// A place at which nil may stand where it mustn't.
#[derive(Clone, Copy, PartialEq, Eq, Debug)]
pub struct Wanting {
    pub place: Place,
    pub needed: Needed,
}

/// A refusal of what may be nil, and what mustn't; nothing where there is no memory.
#[derive(Debug, Drop)]
pub struct Unflagged {
    pub refusal: Refusal,
    pub needed: Option<Needed>,
}

impl From<Memory> for Unflagged {
    ghost use Rattle.std.specs.Prelude.{◌≡◌};
    ghost use Rattle.lus_syntax.specs.declared.refusal.RefusalNumber.TheVariants as numbers;

    ghost from_gives = { λ _ r. r.refusal.number ≡ numbers.Memory };

    fn from(_error: Memory) -> Unflagged {
        Unflagged {
            refusal: Refusal::memory(),
            needed: None,
        }
    }
}

/// Fails where what has to hold doesn't.
pub fn require<E: Drop>(holds: bool, fault: E) -> Result<(), E>
    ensures { is_ok result ≡ holds }
{
    if holds { Ok(()) } else { Err(fault) }
}
