//! How journals are written.

ghost use Rattle.std.specs.Prelude.{◌≡◌, IfOk, string_bytes};

use crate::recovering::Start;
use lus_play::Speaks;
use lus_values::Memory;
use std::alloc::Global;

/// How a journal is written on: each entry as it is spelled, and what comes before the first and behind the last.
pub trait Writes: Speaks {
    ghost use Rattle.std.specs.Prelude.{ℕ};
    ghost use Rattle.lus_devices.specs.Devices.{Bytes};
    ghost use Rattle.lus_sessions.specs.declared.recovering.Start.{Start};

    // What is written before the next entry where a run goes on.
    ghost starts: { Self → Start → Bytes };

    // What is written behind so many entries, where no other comes.
    ghost ends: { Self → ℕ → Bytes };

    /// What is written before the next entry where a run goes on.
    fn start(&self, alloc: Global, start: Start) -> Result<Vec<u8>, Memory>
        ensures { IfOk result (λ v. v.items ≡ starts self.now start) };

    /// What is written behind so many entries, where no other comes.
    fn end(&self, alloc: Global, entries: u64) -> Result<String, Memory>
        ensures { IfOk result (λ t. string_bytes t ≡ ends self.now entries) };
}
