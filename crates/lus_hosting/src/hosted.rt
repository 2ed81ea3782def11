//! One of many instances.

ghost use Rattle.std.specs.Prelude.{◌≡◌, ◌+◌, ◌++◌, ◌∷◌, [], ℕ, IfOk, IfSome, OnOk, string_bytes};
ghost use Rattle.lus_live_instance.specs.Lives.{IsLive};
ghost use Rattle.lus_play.specs.Plays.{entry_of};
ghost use Rattle.lus_program.specs.Programs.{Program as PlainProgram};
ghost use Rattle.lus_replay.specs.Replays.{IsJudged};
ghost use Rattle.lus_hosting.specs.Hosts.{HasCalled};
ghost use Rattle.lus_hosting.specs.LastEntries.{IsLast};

use lus_live_instance::Instance;
use lus_play::{PlayError, Reacts};
use lus_replay::{Verdict, replay_line};
use lus_requests::{Entry, Reply, Request};
use lus_values::{Memory, Names};
use std::alloc::Global;

/// An instance, how many entries it has, and the last of them, where that is recalled.
#[derive(Drop)]
pub(crate) struct Hosted {
    pub(crate) alloc: Global,
    pub(crate) instance: Instance,
    pub(crate) entries: u64,
    pub(crate) recalls: bool,
    pub(crate) last: Option<Entry>,
}

/// The entry of a request and its reply, where that is recalled and there is memory for it.
fn recall(recalls: bool, alloc: Global, request: &Request, reply: &Reply) -> Option<Entry>
    ensures { IfSome result (λ e. e ≡ entry_of request.now reply.now) }
{
    if !recalls {
        return None;
    }
    Some(Entry {
        caller: 0,
        request: request.copy(alloc).ok()?,
        reply: reply.copy(alloc).ok()?,
    })
}

impl Reacts for Hosted {
    ghost history = { λ h. h.instance.reactor.history };

    ghost is_of = { λ h p f. IsLive p f h.instance.reactor × IsLast h.last h.instance.reactor.history };

    fn call(&mut self, request: &Request) -> Result<Reply, Memory> {
        let reply = self.instance.call(request)?;
        self.last = recall(self.recalls, self.alloc, request, &reply);
        Ok(reply)
    }
}

/// A text with a line feed behind it.
fn line_of(alloc: Global, text: &str) -> Result<Vec<u8>, Memory>
    ensures { IfOk result (λ v. v.items ≡ text.now ++ 10 ∷ []) }
{
    let mut line = Vec::new(alloc);
    line.extend_from_slice(text.as_bytes())?;
    line.push(b'\n')?;
    Ok(line)
}

/// Makes a call: its entry, and which that is.
pub(crate) fn call(hosted: &mut Hosted, request: Request) -> Result<(u64, Entry), PlayError>
    ensures called { IfOk result (λ r. HasCalled request hosted.old hosted.new r.0 r.1) }
    ensures live { (p : PlainProgram) (f : ℕ) → IsLive p f hosted.old.instance.reactor → IsLive p f hosted.new.instance.reactor }
{
    let number = hosted.entries.checked_add(1).ok_or(PlayError::Full)?;
    let reply = hosted.instance.call(&request)?;
    hosted.entries = number;
    let entry = Entry {
        caller: 0,
        request,
        reply,
    };
    Ok((number, entry))
}

/// Replays the next entry, which is counted even where it isn't right: nothing is asked of the instance behind that. Gives the right entry
/// too, where that is recalled.
pub(crate) fn replay(
    hosted: &mut Hosted,
    alloc: Global,
    names: &Names,
    text: &str,
    right: &mut String,
) -> Result<(Verdict, Option<Entry>), PlayError>
    ensures judged { IfOk result (λ r. IsJudged r.0 names.now (hosted.old.entries + 1) (text.now ++ 10 ∷ []) (string_bytes right.new)
        hosted.old.instance.reactor.history hosted.new.instance.reactor.history) }
    ensures counted { OnOk result (hosted.new.entries ≡ hosted.old.entries + 1) }
    ensures live { (p : PlainProgram) (f : ℕ) → IsLive p f hosted.old.instance.reactor → IsLive p f hosted.new.instance.reactor }
    ensures last { (p : PlainProgram) (f : ℕ) → IsLive p f hosted.old.instance.reactor
        → IfOk result (λ r. IsLast r.1 hosted.new.instance.reactor.history) }
{
    let number = hosted.entries.checked_add(1).ok_or(PlayError::Full)?;
    let line = line_of(alloc, text)?;
    hosted.last = None;
    let verdict = replay_line(alloc, hosted, names, number, &line, right)?;
    hosted.entries = number;
    Ok((verdict, hosted.last.take()))
}
