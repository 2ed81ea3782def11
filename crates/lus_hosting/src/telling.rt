//! How what becomes of a line is told.

ghost use Rattle.std.specs.Prelude.{◌≡◌, ◌++◌, OnOk, codes, string_bytes};
ghost use Rattle.lus_hosting.specs.Spellings.{log_spelling, no_spelling};

use lus_devices::push_line;
use lus_requests::Entry;
use lus_values::{Memory, Names};
use std::alloc::Global;

/// Tells what becomes of a line.
pub trait Tells {
    ghost use Rattle.std.specs.Prelude.{◌++◌, ◌≡◌};
    ghost use Rattle.lus_hosting.specs.Spellings.{Spelling};

    // How it is spelled.
    ghost spelling: { Self → Spelling };

    /// Appends the nth entry of an instance. After `Memory` a part of it may have been appended.
    fn tell(
        &self,
        text: &mut String,
        instance: &str,
        caller: &str,
        number: u64,
        entry: &Entry,
    ) -> Result<(), Memory>
        ensures { OnOk result (string_bytes text.new
            ≡ string_bytes text.old ++ (spelling self.now).tells instance.now caller.now number entry.now) };

    /// Appends why a line is no call, which has these names. After `Memory` a part of it may have been appended.
    fn deny(
        &self,
        text: &mut String,
        instance: &str,
        caller: &str,
        reason: &str,
    ) -> Result<(), Memory>
        ensures { OnOk result (string_bytes text.new
            ≡ string_bytes text.old ++ (spelling self.now).denies instance.now caller.now reason.now) };
}

/// Tells nothing.
#[derive(Drop)]
pub(crate) struct Silent;

impl Tells for Silent {
    ghost spelling = { λ _. no_spelling };

    fn tell(
        &self,
        _text: &mut String,
        _instance: &str,
        _caller: &str,
        _number: u64,
        _entry: &Entry,
    ) -> Result<(), Memory> {
        Ok(())
    }

    fn deny(
        &self,
        _text: &mut String,
        _instance: &str,
        _caller: &str,
        _reason: &str,
    ) -> Result<(), Memory> {
        Ok(())
    }
}

/// Tells it as the lines of a log.
#[derive(Drop)]
pub struct LogLines<'p> {
    pub alloc: Global,
    pub names: &'p Names,
}

impl Tells for LogLines<'_> {
    ghost spelling = { λ t. log_spelling t.names.now };

    fn tell(
        &self,
        text: &mut String,
        instance: &str,
        caller: &str,
        number: u64,
        entry: &Entry,
    ) -> Result<(), Memory> {
        let callers = [String::from_str(self.alloc, caller)?];
        text.push_str(instance)?;
        text.push_str(" ")?;
        push_line(text, self.names, &callers, number, entry)
    }

    fn deny(
        &self,
        text: &mut String,
        instance: &str,
        caller: &str,
        reason: &str,
    ) -> Result<(), Memory> {
        write!(text, "{instance} # {caller} {reason}\n")?;
        Ok(())
    }
}
