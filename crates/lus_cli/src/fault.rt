//! Why a command ends short, and the status of the process.

ghost use Rattle.std.specs.Prelude.{◌≡◌};
ghost use Rattle.lus_cli.specs.Faults.{fault_status, host_fault, program_fault, run_fault, script_text, words_fault};

use crate::words::WordsError;
use lus_host::{HostError, RunError, ScriptRefusal};
use lus_syntax::{Refusal, RefusalNumber};

/// Why a command ended short.
#[derive(Drop)]
pub enum Fault {
    /// Unknown or missing arguments.
    Words,
    /// A file couldn't be opened or read.
    File,
    /// The output couldn't be written.
    Output,
    /// Out of memory.
    Memory,
    /// A caller had no thread, or an instance didn't get its seats back.
    Start,
    /// The program was refused.
    Program(Refusal),
    /// The scripts were refused.
    Scripts(ScriptRefusal),
    /// This line, from 1, is none of a journal, or begins one of a node that the program doesn't have.
    Journal(u64),
    /// The signal at this place among those that were named, from 1, isn't one of a node there.
    Signal(u64),
}

impl Fault {
    /// The status of the process: 1 for a refused program, 2 for refused scripts, journals, signals or words, 3 for a device that failed,
    /// and 4 where there is no memory or no thread.
    pub fn status(&self) -> u8
        ensures { result ≡ fault_status self.now }
    {
        match self {
            Fault::Program(_) => 1,
            Fault::Scripts(_) | Fault::Journal(_) | Fault::Signal(_) | Fault::Words => 2,
            Fault::File | Fault::Output => 3,
            Fault::Memory | Fault::Start => 4,
        }
    }
}

/// How a refusal of scripts is printed.
pub fn script_text(refusal: ScriptRefusal) -> &'static str
    ensures { result.now ≡ script_text refusal }
{
    match refusal {
        ScriptRefusal::Json => "S1",
        ScriptRefusal::Form => "S2",
        ScriptRefusal::Unknown => "S3",
        ScriptRefusal::Double => "S4",
        ScriptRefusal::Limit => "S5",
        ScriptRefusal::Memory => "S6",
    }
}

impl From<WordsError> for Fault {
    ghost from_gives = { λ e f. f ≡ words_fault e };

    fn from(error: WordsError) -> Fault {
        match error {
            WordsError::Mistaken => Fault::Words,
            WordsError::Memory => Fault::Memory,
        }
    }
}

/// Out of memory is one fault, whatever wanted it.
impl From<RunError> for Fault {
    ghost from_gives = { λ e f. f ≡ run_fault e };

    fn from(error: RunError) -> Fault {
        match error {
            RunError::Program(refusal) => program_fault(refusal),
            RunError::Scripts(ScriptRefusal::Memory) | RunError::Memory => Fault::Memory,
            RunError::Scripts(refusal) => Fault::Scripts(refusal),
            RunError::Read => Fault::File,
            RunError::Write => Fault::Output,
            RunError::Host(error) => host_fault(error),
        }
    }
}

fn host_fault(error: HostError) -> Fault
    ensures { result ≡ host_fault error }
{
    match error {
        HostError::Memory => Fault::Memory,
        HostError::Start | HostError::Seats => Fault::Start,
    }
}

fn program_fault(refusal: Refusal) -> Fault
    ensures { result ≡ program_fault refusal.number refusal }
{
    if refusal.number == RefusalNumber::Memory {
        Fault::Memory
    } else {
        Fault::Program(refusal)
    }
}
