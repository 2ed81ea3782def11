//! The file of a journal that a run goes on in.

ghost use Rattle.std.specs.Prelude.{◌≡◌, OnOk};

use lus_bursts::Syncs;
use lus_devices::Failure;

/// A file of a journal, once it is opened: what it takes comes behind what the file has.
pub trait Log: Syncs {
    ghost use Rattle.std.specs.Prelude.{ℕ, List};

    // It was this, and was opened by this name.
    ghost opens: { Self → List ℕ → Self → Type 0 };

    // It was this, and what its file had behind so many bytes was taken away.
    ghost cuts: { Self → ℕ → Self → Type 0 };

    /// Opens the file of this name, or makes an empty one. Fails where another run has it open so.
    fn open(&mut self, name: &str) -> Result<(), Failure>
        ensures opened { OnOk result (opens self.old name.now self.new) }
        ensures written { Self.written self.new ≡ Self.written self.old }
        ensures failures { Self.failures self.new ≡ Self.failures self.old };

    /// Takes away what the file has behind so many bytes.
    fn cut(&mut self, bytes: u64) -> Result<(), Failure>
        ensures taken { OnOk result (cuts self.old bytes self.new) }
        ensures written { Self.written self.new ≡ Self.written self.old }
        ensures failures { Self.failures self.new ≡ Self.failures self.old };
}
