//! The file of a journal that a live run goes on in.

ghost use Rattle.std.specs.Prelude.{None, ⊤};

use lus_bursts::Syncs;
use lus_devices::{Failure, Sink};
use lus_live::Log;
use std::fs::{File, OpenOptions, TryLockError};
use std::io::Write;

/// A file of the machine that is written on, once it is opened. Each write goes to the system at once. It is locked until the run ends, so
/// that no two runs write on one journal.
#[derive(Drop)]
pub struct JournalFile<'a> {
    rt: &'a HostRuntime,
    file: Option<File>,
    is_held: bool,
}

impl<'a> JournalFile<'a> {
    pub fn new(rt: &'a HostRuntime) -> JournalFile<'a> {
        JournalFile {
            rt,
            file: None,
            is_held: false,
        }
    }

    /// Whether it couldn't be opened since another run has it open.
    pub fn is_held(&self) -> bool {
        self.is_held
    }
}

impl Sink for JournalFile<'_> {
    ghost written = { λ _. None };

    ghost failures = { λ _. None };

    fn write(&mut self, piece: &[u8]) -> Result<usize, Failure> {
        match &mut self.file {
            Some(file) => file.write(piece).map_err(|_| Failure),
            None => Err(Failure),
        }
    }
}

impl Syncs for JournalFile<'_> {
    ghost syncs = { λ _ _. ⊤ };

    fn sync(&mut self) -> Result<(), Failure> {
        match &self.file {
            Some(file) => file.sync_data().map_err(|_| Failure),
            None => Err(Failure),
        }
    }
}

impl Log for JournalFile<'_> {
    ghost opens = { λ _ _ _. ⊤ };

    ghost cuts = { λ _ _ _. ⊤ };

    fn open(&mut self, name: &str) -> Result<(), Failure> {
        let mut how = OpenOptions::new();
        how.append(true).create(true);
        let Ok(file) = how.open(self.rt, name) else {
            return Err(Failure);
        };
        match file.try_lock() {
            Ok(()) => {
                self.file = Some(file);
                Ok(())
            }
            Err(error) => {
                self.is_held = matches!(error, TryLockError::WouldBlock);
                Err(Failure)
            }
        }
    }

    fn cut(&mut self, bytes: u64) -> Result<(), Failure> {
        match &self.file {
            Some(file) => file.set_len(bytes).map_err(|_| Failure),
            None => Err(Failure),
        }
    }
}
