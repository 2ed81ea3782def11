//! Instances whose entries are handed out.
ghost use Rattle.std.specs.Prelude.{◌≡◌, ◌⊎◌, ◌≤◌, length, Some, None, IfOk, IsUtf8, MatchOption};
ghost use Rattle.std.specs.Arc.{arc_value};
ghost use Rattle.lus_leaves.specs.Requests.{IsTold};
ghost use Rattle.lus_live_node.specs.LiveNodes.{Enters, IsNext, IsNone as IsNoEntry, IsOther, last_line};
ghost use Rattle.lus_shared.specs.MachineSpecs.Machines.{IsLawful};
ghost use Rattle.lus_requests.specs.declared.request.Reply.{Reply as ReplyType};
ghost use Rattle.lus_shared.specs.CodeSpecs.Codes.{program_of};
ghost use Rattle.lus_c.specs.Held.{IsOkay};
ghost use Rattle.lus_c.specs.Opened.{HeldLacks};
ghost use Rattle.lus_c.specs.Queries.{IsHandle, IsText};
ghost use Rattle.lus_c.specs.Served.{IsEntered, IsFull, IsNone, IsValue, NoneSpelled};
ghost use Rattle.lus_c.specs.Texts.{AreWords, FoundIsTold, IsMemory};
ghost use Rattle.lus_c.specs.Lives.{EntersLive, HasNoNumber, HeldEntersLive, HeldOpensLive, HeldReplays, IsWrong, LastIsTold, LiveIsCounted, OfHeldLive};

use crate::status::{FULL, MEMORY, NONE, OK, TEXT, VALUE, WRONG, fill};
use crate::texts::{are_words, write_text};
use crate::{calls, journals};
use lus_foreign::{Content, HANDLE, Handle};
use lus_leaves::{Answer, EntryOut, Leaf, request_of};
use lus_live_node::{LiveNode, Verdict};
use lus_requests::Request;
use lus_shared::lus_machine::{CallError, NodeId};
use std::alloc::Global;
use std::str;

/// An instance of a node that was never called, in `out`. It keeps its last entry and no other.
#[unsafe(no_mangle)]
pub extern "C" fn lus_raw_live_open(
    alloc: Global,
    program: &mut Handle,
    node: u32,
    out: &mut Handle,
) -> u32
    ensures opened { IsOkay result → HeldOpensLive program.old.kept.held node out.new.kept.held }
    ensures none { IsNone result → HeldLacks program.old.kept.held node }
    ensures missed { IsOkay result ⊎ (out.new.kept.held ≡ out.old.kept.held) }
    ensures same { program.new.kept.held ≡ program.old.kept.held }
{
    let mut ask = |content: &Content| {
        let Content::Program(program) = content else {
            return HANDLE;
        };
        if !out.is_free() {
            return HANDLE;
        }
        let node = NodeId(node);
        if !program.has(node) {
            return NONE;
        }
        match LiveNode::new(alloc, program, node) {
            Ok(live) => fill(alloc, out, Content::Live(live)),
            Err(_) => MEMORY,
        }
    };
    program.with(alloc, &mut ask)
}

/// Tells C the reply of the last entry.
fn tell_reply(live: &LiveNode, answer: &mut Answer, outputs: &mut [Leaf]) -> u32
    ensures told { MatchOption live.now.last (IsNone result) (λ e. IsEntered result × IsTold e.reply answer.new outputs.old outputs.new) }
    ensures room { IsOkay result → answer.new.count ≤ length outputs.new }
{
    match live.last() {
        Some(entry) => calls::tell(answer, outputs, &entry.reply),
        None => NONE,
    }
}

fn call_at(live: &mut LiveNode, request: Request, answer: &mut Answer, outputs: &mut [Leaf]) -> u32
    ensures entered { IsEntered result → (reply : ReplyType) × Enters live.old live.new request reply × IsTold reply answer.new outputs.old outputs.new }
    ensures lawful { IsEntered result → IsLawful live.new.instance }
    ensures room { IsOkay result → answer.new.count ≤ length outputs.new }
    ensures missed { IsEntered result ⊎ (live.new ≡ live.old) }
    ensures valued { IsValue result → ⊥ }
    ensures full { IsFull result → HasNoNumber live.old }
    ensures handle { IsHandle result → ⊥ }
{
    match live.call(request) {
        Ok(()) => tell_reply(live, answer, outputs),
        Err(CallError::Memory) => MEMORY,
        Err(CallError::Full) => FULL,
    }
}

/// The call that C's numbers spell.
fn call_spelled(
    alloc: Global,
    live: &mut LiveNode,
    kind: u32,
    slot: u64,
    inputs: &[Leaf],
    answer: &mut Answer,
    outputs: &mut [Leaf],
) -> u32
    ensures entered { IsEntered result → EntersLive live.old live.new kind slot inputs.now answer.new outputs.old outputs.new }
    ensures room { IsOkay result → answer.new.count ≤ length outputs.new }
    ensures missed { IsEntered result ⊎ (live.new ≡ live.old) }
    ensures valued { IsValue result → NoneSpelled kind slot inputs.now }
    ensures full { IsFull result → HasNoNumber live.old }
    ensures handle { IsHandle result → ⊥ }
{
    match request_of(alloc, kind, slot, inputs) {
        Ok(Some(request)) => call_at(live, request, answer, outputs),
        Ok(None) => VALUE,
        Err(_) => MEMORY,
    }
}

fn call_in(
    alloc: Global,
    content: &mut Content,
    kind: u32,
    slot: u64,
    inputs: &[Leaf],
    answer: &mut Answer,
    outputs: &mut [Leaf],
) -> u32
    ensures entered { IsEntered result → HeldEntersLive (Some content.old) (Some content.new) kind slot inputs.now answer.new outputs.old outputs.new }
    ensures room { IsOkay result → answer.new.count ≤ length outputs.new }
    ensures missed { IsEntered result ⊎ (content.new ≡ content.old) }
    ensures valued { IsValue result → NoneSpelled kind slot inputs.now }
    ensures full { IsFull result → OfHeldLive (Some content.old) result HasNoNumber }
    ensures handle { OfHeldLive (Some content.old) result (λ l. IsHandle result → ⊥) }
{
    match content {
        Content::Live(live) => call_spelled(alloc, live, kind, slot, inputs, answer, outputs),
        _ => HANDLE,
    }
}

/// One call, by the numbers of `lus_raw_try_call`.
#[unsafe(no_mangle)]
pub extern "C" fn lus_raw_live_call(
    alloc: Global,
    live: &mut Handle,
    kind: u32,
    slot: u64,
    inputs: &[Leaf],
    answer: &mut Answer,
    outputs: &mut [Leaf],
) -> u32
    ensures entered { IsEntered result → HeldEntersLive live.old.kept.held live.new.kept.held kind slot inputs.now answer.new outputs.old outputs.new }
    ensures room { IsOkay result → answer.new.count ≤ length outputs.new }
    ensures missed { IsEntered result ⊎ (live.new.kept.held ≡ live.old.kept.held) }
    ensures valued { IsValue result → NoneSpelled kind slot inputs.now }
    ensures full { IsFull result → OfHeldLive live.old.kept.held result HasNoNumber }
    ensures handle { OfHeldLive live.old.kept.held result (λ l. IsHandle result → ⊥) }
{
    answer.kind = 0;
    answer.why = 0;
    answer.count = 0;
    let Some(mut content) = live.take(alloc) else {
        return HANDLE;
    };
    let status = call_in(alloc, &mut content, kind, slot, inputs, answer, outputs);
    live.put(content);
    status
}

fn replay_at(alloc: Global, live: &mut LiveNode, line: &[u8]) -> u32
    ensures right { IsOkay result → IsNext line.now live.old.instance live.new.instance × (live.new.last ≡ None) }
    ensures other { IsWrong result → IsOther line.now live.old.instance }
    ensures none { IsValue result → IsNoEntry line.now live.old.instance }
    ensures missed { IsOkay result ⊎ (live.new ≡ live.old) }
    ensures full { IsFull result → HasNoNumber live.old }
    ensures handle { IsHandle result → ⊥ }
{
    match live.replay(alloc, line) {
        Ok(Verdict::Right) => OK,
        Ok(Verdict::Wrong) => WRONG,
        Ok(Verdict::NoEntry) => VALUE,
        Err(CallError::Memory) => MEMORY,
        Err(CallError::Full) => FULL,
    }
}

fn replay_in(alloc: Global, content: &mut Content, line: &[u8]) -> u32
    ensures right { IsOkay result → HeldReplays line.now (Some content.old) (Some content.new) }
    ensures other { IsWrong result → OfHeldLive (Some content.old) result (λ l. IsOther line.now l.instance) }
    ensures none { IsValue result → OfHeldLive (Some content.old) result (λ l. IsNoEntry line.now l.instance) }
    ensures missed { IsOkay result ⊎ (content.new ≡ content.old) }
    ensures full { IsFull result → OfHeldLive (Some content.old) result HasNoNumber }
    ensures handle { OfHeldLive (Some content.old) result (λ l. IsHandle result → ⊥) }
{
    match content {
        Content::Live(live) => replay_at(alloc, live, line),
        _ => HANDLE,
    }
}

/// Makes the entry of a line of a journal, with its line feed, where that is the right next one.
#[unsafe(no_mangle)]
pub extern "C" fn lus_raw_live_replay(alloc: Global, live: &mut Handle, line: &[u8]) -> u32
    ensures right { IsOkay result → HeldReplays line.now live.old.kept.held live.new.kept.held }
    ensures other { IsWrong result → OfHeldLive live.old.kept.held result (λ l. IsOther line.now l.instance) }
    ensures none { IsValue result → OfHeldLive live.old.kept.held result (λ l. IsNoEntry line.now l.instance) }
    ensures missed { IsOkay result ⊎ (live.new.kept.held ≡ live.old.kept.held) }
    ensures full { IsFull result → OfHeldLive live.old.kept.held result HasNoNumber }
    ensures handle { OfHeldLive live.old.kept.held result (λ l. IsHandle result → ⊥) }
{
    let Some(mut content) = live.take(alloc) else {
        return HANDLE;
    };
    let status = replay_in(alloc, &mut content, line);
    live.put(content);
    status
}

/// The last entry, where a call made it.
#[unsafe(no_mangle)]
pub extern "C" fn lus_raw_live_entry(
    alloc: Global,
    live: &mut Handle,
    out: &mut EntryOut,
    inputs: &mut [Leaf],
    outputs: &mut [Leaf],
) -> u32
    ensures told { OfHeldLive live.old.kept.held result (λ l. LastIsTold l.last result out.new inputs.old inputs.new outputs.old outputs.new) }
    ensures room { IsOkay result → (out.new.inputs ≤ length inputs.new) × (out.new.outputs ≤ length outputs.new) }
    ensures same { live.new.kept.held ≡ live.old.kept.held }
{
    let mut ask = |content: &Content| match content {
        Content::Live(live) => match live.last() {
            Some(entry) => journals::tell(entry, out, inputs, outputs),
            None => NONE,
        },
        _ => HANDLE,
    };
    live.with(alloc, &mut ask)
}

/// The line of the last entry in the journal of the instance, where a call made it: `VALUE`, where the caller's name isn't one word.
#[unsafe(no_mangle)]
pub extern "C" fn lus_raw_live_line(
    alloc: Global,
    live: &mut Handle,
    caller: &[u8],
    room: &mut [u8],
    bytes: &mut u64,
) -> u32
    ensures told { IsUtf8 caller.now → AreWords caller.now → OfHeldLive live.old.kept.held result (λ l. IsMemory result ⊎
        FoundIsTold (last_line caller.now l) result bytes.new room.old room.new) }
    ensures text { ¬ (IsUtf8 caller.now) → IsText result }
    ensures value { IsUtf8 caller.now → ¬ (AreWords caller.now) → IsValue result }
    ensures same { live.new.kept.held ≡ live.old.kept.held }
{
    let Ok(caller) = str::from_utf8(caller) else {
        return TEXT;
    };
    if !are_words(caller) {
        return VALUE;
    }
    let mut ask = |content: &Content| {
        let Content::Live(live) = content else {
            return HANDLE;
        };
        match live.last_line(alloc, caller) {
            Ok(Some(line)) => write_text(room, bytes, line.as_bytes()),
            Ok(None) => NONE,
            Err(_) => MEMORY,
        }
    };
    live.with(alloc, &mut ask)
}

/// How many entries a live instance has made.
#[unsafe(no_mangle)]
pub extern "C" fn lus_raw_live_count(alloc: Global, live: &mut Handle, count: &mut u64) -> u32
    ensures counted { OfHeldLive live.old.kept.held result (λ l. LiveIsCounted l result count.new) }
    ensures same { live.new.kept.held ≡ live.old.kept.held }
{
    let mut ask = |content: &Content| match content {
        Content::Live(live) => {
            *count = live.count();
            OK
        }
        _ => HANDLE,
    };
    live.with(alloc, &mut ask)
}
