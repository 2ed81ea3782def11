//! What a play stands on: how lines are read, what answers, and how entries are spelled.

ghost use Rattle.std.specs.Prelude.{◌≡◌, ◌++◌, ◌∷◌, [], ℕ, IfOk, OnErr, OnOk, string_bytes};
ghost use Rattle.lus_program.specs.Programs.{Program};
ghost use Rattle.lus_play.specs.Plays.{entry_of};

use lus_devices::Sink;
use lus_requests::{Entry, Reply, Request};
use lus_values::Memory;

/// How lines are read as calls.
pub trait Calls {
    ghost use Rattle.std.specs.Prelude.{Option};
    ghost use Rattle.lus_devices.specs.Devices.{Bytes};
    ghost use Rattle.lus_requests.specs.declared.request.Request.{Request};

    // The line has this request, or it has none.
    ghost reads: { Self → Bytes → Option Request → Type 0 };

    /// The request that a line has.
    fn read(&self, line: &[u8]) -> Result<Option<Request>, Memory>
        ensures { IfOk result (λ o. reads self.now line.now o) };

    /// Writes what is wrong with a line that has no request.
    fn explain<F: Sink>(&self, line: &[u8], faults: &mut F);

    /// Writes why the call of the line of this number was refused, where it was.
    fn remark<F: Sink>(&self, line: u64, entry: &Entry, faults: &mut F);

    /// The number of the first line: 1, unless others came before it.
    fn first_line(&self) -> u64 {
        1
    }
}

/// What answers requests, and has a history that it need not store.
pub trait Reacts {
    ghost use Rattle.std.specs.Prelude.{ℕ, List};
    ghost use Rattle.lus_requests.specs.declared.request.Entry.{Entry};
    ghost use Rattle.lus_program.specs.Programs.{Program};

    // The entries of its calls so far.
    ghost history: { Self → List Entry };

    // It is of this node of this program, and keeps to it.
    ghost is_of: { Self → Program → ℕ → Type 0 };

    /// Answers a request, or leaves all as it was when out of memory.
    fn call(&mut self, request: &Request) -> Result<Reply, Memory>
        ensures ok { IfOk result (λ a. history self.new ≡ history self.old ++ entry_of request.now a ∷ []) }
        ensures err { OnErr result (history self.new ≡ history self.old) }
        ensures same { (p : Program) (f : ℕ) → is_of self.old p f → is_of self.new p f };

    /// Goes on behind a line of a journal that is no entry.
    fn pass(&mut self)
        ensures still { history self.new ≡ history self.old }
        ensures same { (p : Program) (f : ℕ) → is_of self.old p f → is_of self.new p f }
    {}
}

/// How entries are spelled.
pub trait Speaks {
    ghost use Rattle.std.specs.Prelude.{ℕ};
    ghost use Rattle.lus_devices.specs.Devices.{Bytes};
    ghost use Rattle.lus_requests.specs.declared.request.Entry.{Entry};

    // The text of the nth entry.
    ghost says: { Self → ℕ → Entry → Bytes };

    /// Appends the text of the nth entry. After `Memory` a part of it may have been appended.
    fn push(&self, text: &mut String, number: u64, entry: &Entry) -> Result<(), Memory>
        ensures { OnOk result (string_bytes text.new ≡ string_bytes text.old ++ says self.now number entry.now) };
}
