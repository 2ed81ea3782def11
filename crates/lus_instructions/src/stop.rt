//! Why instructions were not followed to an end.

use lus_values::Memory;

/// A growth was refused, or words met a structure.
#[derive(Clone, Copy)]
pub enum Stop {
    Memory,
    /// Only words stop so: entries can be structures.
    Structure,
}

impl From<Memory> for Stop {
    ghost use Rattle.std.specs.Prelude.{◌≡◌};
    ghost use Rattle.lus_instructions.specs.declared.stop.Stop.TheVariants as stops;

    ghost from_gives = { λ _ e. e ≡ stops.Memory };

    fn from(_error: Memory) -> Stop {
        Stop::Memory
    }
}
