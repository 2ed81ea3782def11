//! Values as C has them: a structure is a leaf with the number of its fields, and then the fields.
ghost use Rattle.std.specs.Prelude.{◌≡◌};
ghost use Rattle.lus_leaves.specs.Leaves.{leaf};

/// One value of C's, or the head of a structure. What a value doesn't use is 0.
#[repr(C)]
#[derive(Clone, Copy)]
pub struct Leaf {
    /// What it is, by the numbers below.
    pub kind: u32,
    /// The enumeration's number among the program's types; 0 for others.
    pub of: u32,
    /// 0 or 1 of `bool`, the number, the number of the constructor, or how many fields follow.
    pub number: i64,
}

pub(crate) const ABSENT: u32 = 0;

pub(crate) const BOOL: u32 = 1;

pub(crate) const INT: u32 = 2;

pub(crate) const ENUM: u32 = 3;

pub(crate) const STRUCT: u32 = 4;
/// What no output is, and no input can be.
pub(crate) const NIL: u32 = 5;

pub(crate) fn leaf_of(kind: u32, of: u32, number: i64) -> Leaf
    ensures { result ≡ leaf kind of number }
{
    Leaf { kind, of, number }
}
