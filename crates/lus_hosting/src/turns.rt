//! What becomes of a line.

ghost use Rattle.std.specs.Prelude.{◌≡◌, ◌<◌, [], IfOk, IsUtf8, List, OnOk, codes, length, string_bytes};
ghost use Rattle.std.specs.Arc.{arc_value};
ghost use Rattle.lus_devices.specs.Devices.{Bytes};
ghost use Rattle.lus_lines.specs.Lines.{IsPlain};
ghost use Rattle.lus_live_instance.specs.MachineSpecs.CodeSpecs.Codes.{program_of};
ghost use Rattle.lus_hosting.specs.Hosts.{Answers, HasDenied, Keeps, kind_of};
ghost use Rattle.lus_hosting.specs.Logs.{Logged};
ghost use Rattle.lus_hosting.specs.Spellings.{Spelling};
ghost use Rattle.lus_hosting.specs.Turns.{HasWords, Reads, ReadsWords, reads_seen};
ghost use Rattle.lus_hosting.specs.declared.words.Words.TheVariants.{Call as CallWords, Entry as EntryWords};

use crate::host::{Host, no_call, read_call};
use crate::instances::{Instances, call_on, replay_on};
use crate::telling::Tells;
use crate::words::{Lines, Words, words_in};
use lus_play::PlayError;
use lus_replay::Verdict;
use lus_requests::Entry;
use std::str::from_utf8;

/// What became of a line.
#[derive(Clone, Copy, PartialEq, Eq)]
pub(crate) enum Kind {
    /// Its call was made.
    Called,
    /// It is an entry, and the right one.
    Replayed,
    /// It is a note, which says nothing.
    Noted,
    /// It is no call.
    Denied,
    /// Its entry has another reply than the right one.
    Wrong,
    /// Its entry isn't the next of its instance.
    NoEntry,
    /// The end was met in it.
    Unfinished,
    /// There is none.
    Ended,
}

/// What there is to write of a line.
#[derive(Drop)]
pub(crate) struct Texts {
    /// Its entry, for the log.
    pub(crate) entry: String,
    pub(crate) answer: String,
}

/// Takes back what there was to write.
pub(crate) fn clear(texts: &mut Texts)
    ensures { (string_bytes texts.new.entry ≡ []) × (string_bytes texts.new.answer ≡ []) }
{
    texts.entry.clear();
    texts.answer.clear();
}

/// Says why a line is no call, in place of what was said before.
fn deny<T: Tells>(
    teller: &T,
    instance: &str,
    caller: &str,
    reason: &str,
    texts: &mut Texts,
) -> Result<Kind, PlayError>
    ensures { IfOk result (λ kind. HasDenied kind (T.spelling teller.now) instance.now caller.now reason.now
        (string_bytes texts.new.entry) (string_bytes texts.new.answer)) }
{
    clear(texts);
    teller.deny(&mut texts.answer, instance, caller, reason)?;
    Ok(Kind::Denied)
}

/// Says of a line that it is too long to be a call.
pub(crate) fn answer_long<T: Tells>(teller: &T, texts: &mut Texts) -> Result<Kind, PlayError>
    ensures { IfOk result (λ kind. HasDenied kind (T.spelling teller.now) (codes "-") (codes "-") (codes "it has more bytes than a line may have")
        (string_bytes texts.new.entry) (string_bytes texts.new.answer)) }
{
    deny(
        teller,
        "-",
        "-",
        "it has more bytes than a line may have",
        texts,
    )
}

/// Spells the nth entry of an instance for the log and as an answer, in place of what was said before.
fn tell_entry<J: Tells, T: Tells>(
    scribe: &J,
    teller: &T,
    names: (&str, &str),
    number: u64,
    entry: &Entry,
    texts: &mut Texts,
) -> Result<(), PlayError>
    ensures logged { OnOk result (string_bytes texts.new.entry ≡ (J.spelling scribe.now).tells names.entry.0.now names.entry.1.now number entry.now) }
    ensures told { OnOk result (string_bytes texts.new.answer ≡ (T.spelling teller.now).tells names.entry.0.now names.entry.1.now number entry.now) }
{
    let (instance, caller) = names;
    clear(texts);
    scribe.tell(&mut texts.entry, instance, caller, number, entry)?;
    teller.tell(&mut texts.answer, instance, caller, number, entry)?;
    Ok(())
}

/// Makes the call of a line with these words, or says why it is none.
fn answer_call<J: Tells, T: Tells>(
    host: Host<'_>,
    instances: &mut Instances,
    scribe: &J,
    teller: &T,
    words: (&str, &str, &str),
    texts: &mut Texts,
) -> Result<Kind, PlayError>
    requires { host.node.0 < length (program_of (arc_value host.program.now)).nodes }
    ensures { (reads : Reads) (log : List Logged) (line : Bytes) → IsUtf8 line → HasWords reads line (CallWords words.entry.0 words.entry.1 words.entry.2)
        → ReadsWords reads line (CallWords words.entry.0 words.entry.1 words.entry.2)
        → Keeps (program_of (arc_value host.entry.program.now)) host.entry.node.0 log instances.old
        → IfOk result (λ kind. Answers kind reads (program_of (arc_value host.entry.program.now)) host.entry.node.0 (J.spelling scribe.now)
        (T.spelling teller.now) log line (string_bytes texts.new.entry) (string_bytes texts.new.answer) instances.new) }
{
    let (instance, caller, call) = words;
    match read_call(host, call)? {
        Some(request) => {
            let (number, entry) = call_on(host, instances, instance, request)?;
            tell_entry(scribe, teller, (instance, caller), number, &entry, texts)?;
            Ok(Kind::Called)
        }
        None => {
            let reason = no_call(host, call)?;
            deny(teller, instance, caller, reason.as_str(), texts)
        }
    }
}

fn kind_of(verdict: Verdict) -> Kind
    ensures { result ≡ kind_of verdict }
{
    match verdict {
        Verdict::Right => Kind::Replayed,
        Verdict::Wrong => Kind::Wrong,
        Verdict::NoEntry => Kind::NoEntry,
    }
}

/// Replays the entry of a line with these words.
fn answer_entry(
    host: Host<'_>,
    instances: &mut Instances,
    instance: &str,
    entry: &str,
    texts: &mut Texts,
    right: &mut String,
) -> Result<Kind, PlayError>
    requires { host.node.0 < length (program_of (arc_value host.program.now)).nodes }
    ensures { (reads : Reads) (j s : Spelling) (log : List Logged) (line : Bytes) → HasWords reads line (EntryWords instance.entry entry.entry)
        → Keeps (program_of (arc_value host.entry.program.now)) host.entry.node.0 log instances.old
        → IfOk result (λ kind. Answers kind reads (program_of (arc_value host.entry.program.now)) host.entry.node.0 j s log line
        (string_bytes texts.new.entry) (string_bytes texts.new.answer) instances.new) }
{
    clear(texts);
    let verdict = replay_on(host, instances, instance, entry, right)?;
    Ok(kind_of(verdict))
}

/// What a line lacks that is less than a call.
fn lacking(lines: Lines<'_>) -> &'static str
    ensures { IsPlain result.now }
{
    match lines {
        Lines::Calls(Some(_)) => "a call has an instance, and what is asked",
        Lines::Calls(None) | Lines::All => "a call has an instance, a caller, and what is asked",
    }
}

/// What becomes of a line, and what is to be written of it.
pub(crate) fn answer<J: Tells, T: Tells>(
    host: Host<'_>,
    instances: &mut Instances,
    lines: Lines<'_>,
    scribe: &J,
    teller: &T,
    line: &[u8],
    texts: &mut Texts,
    right: &mut String,
) -> Result<Kind, PlayError>
    requires { host.node.0 < length (program_of (arc_value host.program.now)).nodes }
    ensures { (log : List Logged) → Keeps (program_of (arc_value host.entry.program.now)) host.entry.node.0 log instances.old
        → IfOk result (λ kind. Answers kind (reads_seen lines.entry) (program_of (arc_value host.entry.program.now)) host.entry.node.0
        (J.spelling scribe.now) (T.spelling teller.now) log line.now (string_bytes texts.new.entry) (string_bytes texts.new.answer) instances.new) }
{
    let Ok(line) = from_utf8(line) else {
        return deny(teller, "-", "-", "it is no text of UTF-8", texts);
    };
    match words_in(lines, line) {
        Words::Call(instance, caller, call) => answer_call(
            host,
            instances,
            scribe,
            teller,
            (instance, caller, call),
            texts,
        ),
        Words::Entry(instance, entry) => answer_entry(
            host, instances, instance, entry, texts, right,
        ),
        Words::Note => {
            clear(texts);
            Ok(Kind::Noted)
        }
        Words::Short(instance) => deny(teller, instance, "-", lacking(lines), texts),
        Words::Word => deny(teller, "-", "-", lacking(lines), texts),
        Words::Nameless => deny(
            teller,
            "-",
            "-",
            "a name has 1 to 64 bytes, and no control characters",
            texts,
        ),
    }
}
