//! Devices that can be synced.

ghost use Rattle.std.specs.Prelude.{◌≡◌, OnOk};

use lus_devices::{Failure, Output, Sink};
use std::io::Write;

/// A device whose bytes can be brought to a medium that keeps them when the power fails.
pub trait Syncs: Sink {
    // It was this, and all that it had taken was brought to its medium.
    ghost syncs: { Self → Self → Type 0 };

    /// Brings all that it has taken to its medium. After a failure nothing is known of what is there.
    fn sync(&mut self) -> Result<(), Failure>
        ensures synced { OnOk result (syncs self.old self.new) }
        ensures written { Self.written self.new ≡ Self.written self.old }
        ensures failures { Self.failures self.new ≡ Self.failures self.old };
}

/// Bytes in memory are where they are kept.
impl Syncs for Vec<u8> {
    ghost syncs = { λ old new. new.items ≡ old.items };

    fn sync(&mut self) -> Result<(), Failure> {
        Ok(())
    }
}

/// A writer of the machine, as the standard output, isn't brought to a medium.
impl<W: Write> Syncs for Output<W> {
    ghost syncs = { λ _ _. ⊥ };

    fn sync(&mut self) -> Result<(), Failure> {
        Err(Failure)
    }
}
