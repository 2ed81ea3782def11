//! Names that are read where a keyword is meant: in capitals, or misspelt.

use crate::edits::{edit_at, edit_of};
use crate::fault::{Fault, Range, is_name};
use crate::gate::{about_marks, about_word};
use crate::heads::is_variable;
use crate::saying::told;
use crate::trial::{Reach, start_of, token_of};
use crate::words::{is_any, is_constructor};
use lus_faults::{Edit, Finding, are_near, bytes_at};
use lus_syntax::{Token, TokenKind, WORDS, Word};
use std::alloc::{AllocError, Global};

/// The keyword that a text is in other letters.
fn keyword_like(text: &str) -> Option<(&'static str, Word)> {
    for (spelt, word) in WORDS {
        if let Some(word) = word
            && text.eq_ignore_ascii_case(spelt)
        {
            return Some((*spelt, *word));
        }
    }
    None
}

/// The keyword that a name at a place is in other letters, unless a variable or a constructor has this name.
fn capital_at(fault: &Fault<'_>, place: usize) -> Option<(&'static str, Word)> {
    let text = fault.text(place);
    if !is_name(fault.tokens.get(place))
        || is_variable(fault, text)
        || is_constructor(fault, text)
    {
        return None;
    }
    keyword_like(text)
}

/// The tokens of the equation or the part of a head that the fault stands in.
fn statement(fault: &Fault<'_>) -> Range {
    let end = fault
        .find(fault.place, &[";"])
        .unwrap_or(fault.tokens.len());
    for back in 1..fault.place.saturating_add(1) {
        if is_any(fault.before(back), &[";", "let", "tel"]) {
            return (fault.place.saturating_sub(back).saturating_add(1), end);
        }
    }
    (0, end)
}

/// The places in a range of names that are keywords in other letters.
fn capitals_in(alloc: Global, fault: &Fault<'_>, range: Range) -> Result<Vec<usize>, AllocError> {
    let (from, to) = range;
    let mut places = Vec::new(alloc);
    for place in from..to {
        if capital_at(fault, place).is_some() {
            places.push(place)?;
        }
    }
    Ok(places)
}

/// How far the tokens are read with these names in a range as keywords.
fn reach_lowered(alloc: Global, fault: &Fault<'_>, range: Range) -> Result<Reach, AllocError> {
    let (from, to) = range;
    let mut others = Vec::new(alloc);
    for place in from..to {
        let Some(token) = fault.tokens.get(place) else {
            return Ok(fault.reached());
        };
        let other: Token<'_> = match capital_at(fault, place) {
            Some((_, word)) => token_of(TokenKind::Keyword(word)),
            None => *token,
        };
        others.push(other)?;
    }
    fault.reach_with(alloc, from, to, &others)
}

/// The places of the names in a range that are keywords in other letters, where the tokens are read behind the last one and the fault
/// with them as keywords; none where they aren't.
fn helping_in(alloc: Global, fault: &Fault<'_>, range: Range) -> Result<Vec<usize>, AllocError> {
    let mut places = capitals_in(alloc, fault, range)?;
    let reach = reach_lowered(alloc, fault, range)?;
    let is_read = match places.last() {
        Some(last) => match fault.tokens.get(*last) {
            Some(token) => reach.is_behind(start_of(token)) && reach.is_behind(fault.next()),
            None => false,
        },
        None => false,
    };
    if !is_read {
        places.clear();
    }
    Ok(places)
}

/// The places of names that are keywords in other letters: all of the declaration, or of the statement at the fault; none where it doesn't
/// help to read them as keywords.
fn capitals(alloc: Global, fault: &Fault<'_>) -> Result<Vec<usize>, AllocError> {
    let all = helping_in(alloc, fault, (0, fault.tokens.len()))?;
    if !all.is_empty() {
        return Ok(all);
    }
    helping_in(alloc, fault, statement(fault))
}

/// The change that writes names as the keywords that they are in other letters.
fn lowered(alloc: Global, fault: &Fault<'_>, places: &[usize]) -> Result<Option<Edit>, AllocError> {
    let (Some(first), Some(last)) = (places.first(), places.last()) else {
        return Ok(None);
    };
    let Some((start, end)) = fault.bytes_of((*first, last.saturating_add(1))) else {
        return Ok(None);
    };
    let mut text = String::new(alloc);
    let mut about = about_marks(alloc);
    let mut at = start;
    for place in places {
        if let (Some((spelt, _)), Some(token)) = (
            capital_at(fault, *place),
            fault.tokens.get(*place),
        ) {
            text.push_str(bytes_at(fault.source, at, token.span.start.byte).unwrap_or(""))?;
            text.push_str(spelt)?;
            about.drops.push(fault.text(*place))?;
            about.adds.push(spelt)?;
            at = token.span.end().byte;
        }
    }
    edit_at(alloc, fault, (start, end), text, &about)
}

/// What is said of a keyword in capitals at a place, with all that are to be written anew.
fn told_capital(
    alloc: Global,
    fault: &Fault<'_>,
    place: usize,
    spelt: &str,
    places: &[usize],
) -> Result<Finding, AllocError> {
    let found = fault.text(place);
    let sentence = format!(in alloc; "unknown keyword `{found}`")?;
    let note = format!(in alloc; "Keywords are in small letters: `{spelt}`.")?;
    let edit = lowered(alloc, fault, places)?;
    let wrong = (place, place.saturating_add(1));
    told(alloc, fault, wrong, sentence, note.as_str(), edit)
}

/// What is said where a keyword in capitals is read as a name, at the fault or right before it.
fn told_capitals(alloc: Global, fault: &Fault<'_>) -> Result<Option<Finding>, AllocError> {
    for place in [fault.place, fault.place.saturating_sub(1)] {
        if let Some((spelt, _)) = capital_at(fault, place) {
            let places = capitals(alloc, fault)?;
            if places.contains(&place) {
                return Ok(Some(told_capital(alloc, fault, place, spelt, &places)?));
            }
        }
    }
    Ok(None)
}

/// The nearest word with which more is read in place of a token.
fn word_for(
    alloc: Global,
    fault: &Fault<'_>,
    place: usize,
) -> Result<Option<&'static str>, AllocError> {
    let mut best = None;
    let mut least = usize::MAX;
    for (text, word) in WORDS {
        let Some(word) = word else {
            continue;
        };
        let Some(apart) = are_near(alloc, fault.text(place), text)? else {
            continue;
        };
        let others = [token_of(TokenKind::Keyword(*word))];
        let behind = place.saturating_add(1);
        let reach = fault.reach_with(alloc, place, behind, &others)?;
        if apart < least && reach.is_behind(fault.next()) {
            best = Some(*text);
            least = apart;
        }
    }
    Ok(best)
}

/// The first token at the fault, or right before it, that is a name for which a word is meant, and the word.
fn meant_word(
    alloc: Global,
    fault: &Fault<'_>,
) -> Result<Option<(usize, &'static str)>, AllocError> {
    for place in [fault.place, fault.place.saturating_sub(1)] {
        if is_name(fault.tokens.get(place)) && fault.token().is_some() {
            if let Some(word) = word_for(alloc, fault, place)? {
                return Ok(Some((place, word)));
            }
        }
    }
    Ok(None)
}

/// What is said of a name for which a word is meant.
fn told_word(
    alloc: Global,
    fault: &Fault<'_>,
    place: usize,
    word: &str,
) -> Result<Finding, AllocError> {
    let range = (place, place.saturating_add(1));
    let found = fault.text(place);
    let note = format!(in alloc; "Did you mean `{word}`?")?;
    let edit = edit_of(alloc, fault, range, word, &about_word(alloc, found, word)?)?;
    let sentence = format!(in alloc; "unknown keyword `{found}`")?;
    told(alloc, fault, range, sentence, note.as_str(), edit)
}

/// What is said where a name is read for which a word is meant: at the fault, or right before it.
pub fn respelled(alloc: Global, fault: &Fault<'_>) -> Result<Option<Finding>, AllocError> {
    let capitals = told_capitals(alloc, fault)?;
    if capitals.is_some() {
        return Ok(capitals);
    }
    match meant_word(alloc, fault)? {
        Some((place, word)) => Ok(Some(told_word(alloc, fault, place, word)?)),
        None => Ok(None),
    }
}
