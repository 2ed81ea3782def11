//! The caller and the request of an entry's line.

ghost use Rattle.std.specs.Prelude.{◌≡◌, ◌++◌, ℕ, IfOk, option_map};
ghost use Rattle.lus_values.specs.Names.{Text};
ghost use Rattle.lus_requests.specs.declared.request.Request.{Request as Plain};
ghost use Rattle.lus_asked.specs.Asked.{IsCaller, IsRead, IsSpelled, asked_text};
ghost use Rattle.lus_asked.specs.Reading.{arrow_behind, asked_at, blank_place, request_at, split_blank};

use crate::piece::after;
use crate::request::take_request;
use lus_requests::Request;
use lus_values::{Memory, Names};
use std::alloc::Global;
use std::str::from_utf8;

#[tactic(auto, unfolding(crate::specs::Reading::blank_place))]
fn blank_place(text: &[u8]) -> usize
    ensures { result ≡ blank_place text.now }
{
    text.iter().take_while(|byte| **byte != b' ').count()
}

/// What stands before the first blank, and what behind it.
#[tactic(auto, unfolding(crate::specs::Reading::split_blank))]
fn split_blank(text: &[u8]) -> Option<(&[u8], &[u8])>
    ensures { option_map (λ p. (p.0.now, p.1.now)) result ≡ split_blank text.now }
{
    let (front, rest) = text.split_at(blank_place(text));
    match rest {
        [_, later @ ..] => Some((front, later)),
        [] => None,
    }
}

/// The request that stands before an arrow.
fn read_call(alloc: Global, names: &Names, call: &[u8]) -> Result<Option<Request>, Memory>
    ensures { IfOk result (λ o. o ≡ arrow_behind (request_at names.now call.now)) }
{
    match take_request(alloc, names, call)? {
        Some((request, rest)) if after(b" -> ", rest).is_some() => Ok(Some(request)),
        _ => Ok(None),
    }
}

/// The caller, as it stands there, and the request of a line.
#[tactic(auto, unfolding(crate::specs::Reading::asked_at))]
fn take_asked<'a>(
    alloc: Global,
    names: &Names,
    line: &'a [u8],
) -> Result<Option<(&'a [u8], Request)>, Memory>
    ensures { IfOk result (λ o. option_map (λ p. (p.0.now, p.1)) o ≡ asked_at names.now line.now) }
{
    let Some((_, later)) = split_blank(line) else {
        return Ok(None);
    };
    let Some((caller, call)) = split_blank(later) else {
        return Ok(None);
    };
    match read_call(alloc, names, call)? {
        Some(request) => Ok(Some((caller, request))),
        None => Ok(None),
    }
}

/// The caller and the request of a line that begins as an entry's does, up to its reply: whatever number, caller and request a line
/// spells, these are its caller and its request.
pub fn read_asked<'a>(
    alloc: Global,
    names: &Names,
    line: &'a [u8],
) -> Result<Option<(&'a str, Request)>, Memory>
    ensures complete { (caller : Text) (n : ℕ) (r : Plain) (given : Text) → IsCaller caller → IsSpelled names.now r
        → line.now ≡ asked_text names.now caller n r ++ given
        → IfOk result (λ o. IsRead caller r o) }
{
    let Some((caller, request)) = take_asked(alloc, names, line)? else {
        return Ok(None);
    };
    match from_utf8(caller) {
        Ok(caller) => Ok(Some((caller, request))),
        Err(_) => Ok(None),
    }
}
