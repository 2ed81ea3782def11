//! A law of journals: a function with an empty body, whose contract is the law.

ghost use Rattle.std.specs.Prelude.{◌≡◌, ◌++◌, List, length};
ghost use Rattle.lus_devices.specs.Devices.{Bytes};
ghost use Rattle.lus_sessions.specs.Recoveries.{entries_at, head_of, joined, so_far};
ghost use Rattle.lus_sessions.specs.Sessions.{Parties, added, journal_lines};
ghost use Rattle.lus_sessions.specs.declared.recovering.Start.{Start};
ghost use Rattle.lus_replay.specs.Replays.{Item, items_text, saids_of};
ghost use Rattle.lus_requests.specs.declared.request.Entry.{Entry};
ghost use Rattle.lus_values.specs.Names.{Names};

/// What a journal has, and behind it what a run that goes on writes, is the text of one journal again.
#[tactic(auto, using(crate::proofs::JoinLaws::are_joined))]
pub fn journals_are_joined()
    ensures { (names : Names) (who : Parties) (start : Start) (items : List Item) (tail : Bytes) (entries : List Entry)
        → entries_at start ≡ length (saids_of items)
        → so_far names who.node start items tail ++ added (journal_lines names who) start entries
        ≡ head_of who.node ++ items_text names 0 (joined who.caller start items tail entries) }
{}
