//! What stops a pass: out of memory, or a place at which its rule is broken, and why.

ghost use Rattle.std.specs.Prelude.{◌≡◌, is_none};
ghost use Rattle.lus_source.specs.declared.fault.Fault.TheVariants.{Memory as OfMemory};
ghost use Rattle.lus_source.specs.ScopeView.{Tested};

use lus_program::Kind;
use lus_syntax::{Place, Refusal, RefusalNumber};
use lus_values::Memory;
use std::alloc::{AllocError, AllocFailed};

/// A part of something by its number, from 0, and a type.
#[derive(Clone, Copy, PartialEq, Eq, Debug)]
pub struct Member {
    pub number: usize,
    pub kind: Kind,
}

/// What has parts of certain types.
#[derive(Clone, Copy, PartialEq, Eq, Debug)]
pub enum Whole {
    Constant,
    Equation,
    Call,
    /// A value of this type.
    Structure(Kind),
    /// An operator, whose last operand begins at this place.
    Operator(Place),
    /// An operator that takes two values of one type, whose last operand begins at this place.
    Alike(Place),
    /// A merge, whose two branches begin at these places.
    Merge(Place, Place),
}

/// Why a check fails at a place.
#[derive(Clone, Copy, PartialEq, Eq, Debug)]
pub enum Cause {
    /// No more is said than the place.
    Unsaid,
    /// The name stands for nothing here.
    Unknown,
    /// The name stands twice.
    Twice,
    /// An equation defines what is no output and no local.
    Undefinable,
    /// An output or a local has no equation.
    Undefined,
    /// A part that is wanted to have this type has the other one.
    Clash(Whole, Member, Kind),
    /// So many parts are wanted, and so many are found; where that is too few, the first that lacks.
    Count(Whole, usize, usize, Option<Member>),
    /// A call that gives so many values stands where one is wanted.
    Results(usize),
    /// This type has no constructor or no field of the name.
    Lacks(Kind),
    /// The constructor or the field of this number of a type stands so many times. The first part has the other type.
    Times(Member, usize, Option<Kind>),
    /// The variable of this number, of this type, has no such clock.
    Clock(Member),
    /// A function keeps a memory.
    Remembers,
}

/// A refusal, and why.
#[derive(Debug, Drop)]
pub struct Rejected {
    pub refusal: Refusal,
    pub cause: Cause,
}

#[derive(Clone, Copy, PartialEq, Eq, Debug)]
pub enum Fault {
    Memory,
    At(Place, Cause),
}

impl Fault {
    ghost use Rattle.std.specs.Prelude.{◌≡◌, ◌≢◌};
    ghost use Rattle.lus_source.specs.ScopeView.{number_of};

    /// The refusal of a pass that refuses by this number, and why.
    pub fn rejected(self, number: RefusalNumber) -> Rejected
        requires { number ≢ RefusalNumber.Memory }
        ensures { result.refusal.number ≡ number_of number self }
    {
        match self {
            Fault::Memory => Rejected {
                refusal: Refusal::memory(),
                cause: Cause::Unsaid,
            },
            Fault::At(place, cause) => Rejected {
                refusal: Refusal::new(number, place.line, place.column),
                cause,
            },
        }
    }
}

impl From<Memory> for Fault {
    ghost from_gives = { λ _ e. e ≡ OfMemory };

    fn from(_error: Memory) -> Fault {
        Fault::Memory
    }
}

impl From<AllocError> for Fault {
    ghost from_gives = { λ _ e. e ≡ OfMemory };

    fn from(_error: AllocError) -> Fault {
        Fault::Memory
    }
}

impl<T: Drop> From<AllocFailed<T>> for Fault {
    ghost from_gives = { λ _ e. e ≡ OfMemory };

    fn from(_error: AllocFailed<T>) -> Fault {
        Fault::Memory
    }
}

impl From<Memory> for Rejected {
    ghost use Rattle.lus_syntax.specs.declared.refusal.RefusalNumber.TheVariants as numbers;

    ghost from_gives = { λ _ r. r.refusal.number ≡ numbers.Memory };

    fn from(_error: Memory) -> Rejected {
        Rejected {
            refusal: Refusal::memory(),
            cause: Cause::Unsaid,
        }
    }
}

/// A fault at a place, if there is one.
pub fn refuse(found: Option<Place>, cause: Cause) -> Result<(), Fault>
    ensures { Tested result (is_none found) }
{
    match found {
        None => Ok(()),
        Some(place) => Err(Fault::At(place, cause)),
    }
}
