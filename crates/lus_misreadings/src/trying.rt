//! Changes of one token that are tried: one of the likely tokens put in, the fault's left out, and a name for a word of the language.

use crate::fault::{Fault, is_name};
use crate::heads::is_free;
use crate::places::is_equated;
use crate::trial::{Reach, start_of, token_of, tokens_of};
use crate::words::is_any;
use lus_faults::slice_of;
use lus_syntax::TokenKind;
use std::alloc::{AllocError, Global};

/// What may stand in a place, that which is missing most first: `int` for any type, `0` for an expression, `+` for an operator, and `name`.
pub const TOKENS: &str =
    "; ) tel let returns var then else : , = ( } { -> . fby when enum struct int node function type const 0 name +";

/// How many of these are missing so often that they are put in.
const MISSING: usize = 15;

/// What groups and separates.
static MARKS: [&str; 7] = ["(", ")", "{", "}", ",", ";", ":"];

/// The words between which declarations and the parts of an `if` stand.
static FRAMES: [&str; 13] = [
    "node", "function", "returns", "var", "let", "tel", "type", "const", "enum", "struct", "if",
    "then", "else",
];

/// A change of one token.
#[derive(Clone, Copy)]
pub enum Change {
    Insert(&'static str),
    Remove,
    Rename,
}

/// The change with which most is read, and how far that is.
#[derive(Clone, Copy)]
struct Tried {
    change: Option<Change>,
    reach: Reach,
}

impl Tried {
    /// The better one of it and another change that is to be read further than a place: the first, where they are as good.
    fn or(self, change: Change, reach: Reach, wanted: Reach) -> Tried {
        if !reach.is_behind(self.reach) || !reach.is_behind(wanted) {
            return self;
        }
        let change = Some(change);
        Tried { change, reach }
    }
}

/// Where the token at a place begins, if that is behind the token behind the fault; else where that one begins.
fn start_at(fault: &Fault<'_>, place: Option<usize>) -> Reach {
    let most = fault.next();
    match fault.tokens.get(place.unwrap_or(fault.tokens.len())) {
        Some(token) if start_of(token).is_behind(most) => start_of(token),
        _ => most,
    }
}

/// How far tokens are to be read with a change: behind the first semicolon from the fault on, which ends what it is in.
fn end_wanted(fault: &Fault<'_>) -> Reach {
    start_at(fault, fault.find(fault.place, &[";"]))
}

/// The place of the equals sign of an equation whose left side begins at the fault.
fn sign_behind(fault: &Fault<'_>) -> Option<usize> {
    for place in fault.place..fault.tokens.len() {
        let text = fault.text(place);
        if is_any(text, &["="]) {
            return (place > fault.place).then_some(place);
        }
        if !is_name(fault.tokens.get(place)) && !is_any(text, &["(", ",", ")"]) {
            return None;
        }
    }
    None
}

/// How far tokens are to be read with one put in. Behind a semicolon it does that something begins, in which there may be another fault:
/// equations, or an equation with its equals sign, or `:=` for it.
fn wanted_with(fault: &Fault<'_>, missing: &str) -> Reach {
    if !is_any(missing, &[";"]) {
        return end_wanted(fault);
    }
    if is_any(fault.found(), &["let", "var", "tel"]) {
        return fault.reached();
    }
    if is_any(fault.behind(1), &[":"]) && is_any(fault.behind(2), &["="]) {
        return fault.reached();
    }
    match sign_behind(fault) {
        Some(place) => start_at(fault, Some(place)),
        None => end_wanted(fault),
    }
}

/// Whether an equals sign may be missing at the fault, which stands on the left of an equation: behind a variable that has none, where no
/// other one follows but in a condition.
fn may_lack_sign(fault: &Fault<'_>) -> bool {
    let back = if is_any(fault.before(1), &[")"]) {
        2
    } else {
        1
    };
    let behind = fault
        .find(fault.place, &["=", "if", ";"])
        .unwrap_or(fault.tokens.len());
    is_free(fault, fault.before(back)) && !is_any(fault.text(behind), &["="])
}

/// Whether a token may be missing: on the left of an equation no comma but between variables that have none; no second equals sign; and
/// an arrow only behind the label of a branch.
fn may_lack(fault: &Fault<'_>, missing: &str) -> bool {
    let is_left = fault.follows("let") && !is_equated(fault, fault.place);
    match missing {
        "," if is_left => is_free(fault, fault.before(1)) && is_free(fault, fault.found()),
        "=" if is_left => may_lack_sign(fault),
        "=" => !is_equated(fault, fault.place),
        "->" => {
            is_any(fault.before(2), &["("])
                && (is_any(fault.before(3), &[")"]) || is_any(fault.before(4), &["merge"]))
        }
        _ => true,
    }
}

/// Whether the fault's token may be too much: it groups or separates, or is a word of a declaration or an `if` that stands twice.
fn may_drop(fault: &Fault<'_>) -> bool {
    let found = fault.found();
    is_any(found, &MARKS) || is_any(found, &FRAMES) && found == fault.before(1)
}

/// The missing token with which most is read, if more is than has to be.
fn try_tokens(alloc: Global, fault: &Fault<'_>) -> Result<Tried, AllocError> {
    let mut tried = Tried {
        change: None,
        reach: fault.reached(),
    };
    for (number, token) in tokens_of(alloc, TOKENS).iter().enumerate() {
        let text = slice_of(TOKENS, token.span);
        if number < MISSING && may_lack(fault, text) {
            let others = [token_of(token.kind)];
            let reach = fault.reach_with(alloc, fault.place, fault.place, &others)?;
            tried = tried.or(Change::Insert(text), reach, wanted_with(fault, text));
        }
    }
    Ok(tried)
}

/// The same without the fault's token, or with a name in its place.
fn try_others(alloc: Global, fault: &Fault<'_>, best: Tried) -> Result<Tried, AllocError> {
    let behind = fault.place.saturating_add(1);
    let Some(token) = fault.token() else {
        return Ok(best);
    };
    let wanted = end_wanted(fault);
    let mut tried = best;
    if matches!(token.kind, TokenKind::Keyword(_)) {
        let others = [token_of(TokenKind::Identifier("name"))];
        let reach = fault.reach_with(alloc, fault.place, behind, &others)?;
        tried = tried.or(Change::Rename, reach, wanted);
    }
    if !may_drop(fault) {
        return Ok(tried);
    }
    let reach = fault.reach_with(alloc, fault.place, behind, &[])?;
    Ok(tried.or(Change::Remove, reach, wanted))
}

/// Whether what isn't read any more is a parenthesis or a brace that closes, which tells of a change that breaks something else.
fn is_broken(fault: &Fault<'_>, reached: Reach) -> bool {
    for token in fault.tokens {
        let start = token.span.start;
        if start.line == reached.line && start.column == reached.column {
            return is_any(slice_of(fault.source, token.span), &[")", "}"]);
        }
    }
    false
}

/// The change of one token with which most is read; none that leaves what it is in unread.
pub fn change_at(alloc: Global, fault: &Fault<'_>) -> Result<Option<Change>, AllocError> {
    let tried = try_others(alloc, fault, try_tokens(alloc, fault)?)?;
    Ok(if is_broken(fault, tried.reach) {
        None
    } else {
        tried.change
    })
}
