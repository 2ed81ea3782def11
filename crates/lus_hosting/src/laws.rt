//! A law of logs: a function with an empty body, whose contract is the law.

ghost use Rattle.std.specs.Prelude.{ℕ, List, Option};
ghost use Rattle.lus_devices.specs.Devices.{Bytes};
ghost use Rattle.lus_program.specs.Programs.{Program};
ghost use Rattle.lus_live_instance.specs.MachineSpecs.Constructors.{names_of};
ghost use Rattle.lus_hosting.specs.Audits.{LogLine, entries_in};
ghost use Rattle.lus_hosting.specs.Logs.{Logged};
ghost use Rattle.lus_hosting.specs.Recoveries.{IsJoined};
ghost use Rattle.lus_hosting.specs.Spellings.{Spelling, log_spelling};
ghost use Rattle.lus_hosting.specs.Turns.{Turns, calls};

/// What a log has in whole lines, and behind it what a run that goes on in it writes there, is the text of one log again: of the entries that
/// were there and those of the calls.
#[tactic(auto, using(crate::proofs::JoinLaws::are_joined))]
pub fn logs_are_joined()
    ensures { (p : Program) (f : ℕ) (caller : Option Bytes) (s : Spelling) (lines : List LogLine) (log : List Logged) (denied : ℕ) (read kept written : Bytes)
        → Turns (calls caller) p f (log_spelling (names_of p)) s (entries_in lines) log denied read kept written
        → IsJoined (names_of p) lines log kept }
{}
