//! What is said of a causal cycle.

use crate::delaying::{delayed, delayed_at, first_of_call};
use crate::needs::{Need, need_of};
use lus_faults::{
    Edit, Exchanged, Finding, Sought, edited, edited_lines, exchange_in, expressions_in, extent_of,
};
use lus_syntax::{Node, Refusal, Tree};
use std::alloc::{AllocError, Global};

/// How many variables of a cycle are told.
const MOST_TOLD: usize = 20;

/// Of how many uses it is told how they are made ones of the instant before.
const MOST_WAYS: usize = 4;

/// The most bytes of a line that is told in a note.
const MOST_BYTES: usize = 100;

/// A use of a variable in a cycle.
#[derive(Clone, Copy)]
struct Link<'r> {
    variable: &'r str,
    need: Need,
}

/// Whether a variable is used before its equation in the text, as what is fed back often is.
fn is_fed_back(node: &Node, link: Link<'_>) -> bool {
    node.equations.iter().any(|equation| {
        equation.left.iter().any(|name| {
            name.text.as_str() == link.variable && name.span.start.byte > link.need.span.start.byte
        })
    })
}

/// The uses in a cycle, each with the variable that is used.
fn links_of<'r>(
    alloc: Global,
    node: &Node,
    refusal: &'r Refusal,
    told: &mut Finding,
) -> Result<Vec<Link<'r>>, AllocError> {
    let mut links = Vec::new(alloc);
    let names = refusal.cycle.names();
    for (place, name) in names.iter().take(MOST_TOLD).enumerate() {
        let Some(next) = names.get(place.saturating_add(1)).or(names.first()) else {
            return Ok(links);
        };
        let (from, variable) = (name.as_str(), next.as_str());
        if let Some(need) = need_of(node, from, variable) {
            links.push(Link { variable, need })?;
            told.relate(
                need.span,
                format!(in alloc; "`{from}` depends on `{variable}` here")?,
            )?;
        }
    }
    Ok(links)
}

/// The place of the use in a cycle of several variables that is best made one of the instant before: of a variable whose first value is
/// known, or that is fed back, or the last.
fn best_of(
    alloc: Global,
    source: &str,
    tree: &Tree,
    node: &Node,
    links: &[Link<'_>],
) -> Result<usize, AllocError> {
    let mut fed_back = None;
    for (place, link) in links.iter().enumerate() {
        if first_of_call(alloc, source, tree, node, link.variable)?.is_some() {
            return Ok(place);
        }
        if fed_back.is_none() && is_fed_back(node, *link) {
            fed_back = Some(place);
        }
    }
    Ok(fed_back.unwrap_or(links.len().saturating_sub(1)))
}

/// Appends how the line of another way would read.
fn push_way(
    alloc: Global,
    note: &mut String,
    source: &str,
    line: usize,
    edit: &Edit,
) -> Result<(), AllocError> {
    let Some(changed) = edited(alloc, source, edit)? else {
        return Ok(());
    };
    let text = edited_lines(changed.as_str(), edit).unwrap_or("").trim();
    if text.len() > MOST_BYTES {
        return Ok(());
    }
    write!(note, " Or, in line {line}, write `{text}`.")
}

/// The first `fby` or `->` whose sides seem to be exchanged and on whose left a variable of a cycle is needed, with the variable that its
/// equation defines.
fn exchanged_in<'t>(
    alloc: Global,
    source: &str,
    node: &'t Node,
    links: &[Link<'_>],
) -> Result<Option<(Exchanged<'t>, &'t str)>, AllocError> {
    for equation in &node.equations {
        for expr in &expressions_in(alloc, &equation.right)? {
            if let Some(found) = exchange_in(alloc, node, *expr)?
                && let Some(name) = equation.left.first()
            {
                let left = extent_of(source, found.left);
                let is_needed = links.iter().any(|link| {
                    let byte = link.need.span.start.byte;
                    left.start.byte <= byte && byte < left.end().byte
                });
                if is_needed {
                    return Ok(Some((found, name.text.as_str())));
                }
            }
        }
    }
    Ok(None)
}

/// What is said of a cycle, with its further places, through a first value on the wrong side.
fn told_of_exchanged(
    alloc: Global,
    source: &str,
    found: Exchanged<'_>,
    name: &str,
    told: Finding,
) -> Result<Finding, AllocError> {
    let operator = found.operator;
    let span = extent_of(source, found.expr);
    let note = Some(String::from_str(alloc, found.note())?);
    Ok(Finding {
        sentence: format!(in alloc;
            "`{name}` depends on itself within one instant, by the first value of this `{operator}`"
        )?,
        place: Some(span.start),
        length: span.length,
        note,
        edit: Some(found.edit(alloc, source)?),
        ..told
    })
}

/// What is said of a variable that needs itself: its uses with the value of the instant before.
fn told_of_one(
    alloc: Global,
    source: &str,
    tree: &Tree,
    node: &Node,
    text: &str,
    told: Finding,
) -> Result<Finding, AllocError> {
    let edit = delayed(alloc, source, tree, node, text)?;
    let is_chosen = edit.as_ref().is_some_and(|edit| edit.text.starts_with("("));
    let note = if is_chosen {
        "An equation cannot use the value that it defines: `pre x` is the value of `x` one instant before. Choose the first value: the one here is a placeholder."
    } else {
        "An equation cannot use the value that it defines: `pre x` is the value of `x` one instant before."
    };
    Ok(told.with_note(alloc, note)?.with_edit(edit))
}

/// What is said of variables that need each other: the ways to use one of them with the value of the instant before.
fn told_of_several(
    alloc: Global,
    source: &str,
    tree: &Tree,
    node: &Node,
    links: &[Link<'_>],
    told: Finding,
) -> Result<Finding, AllocError> {
    let best = best_of(alloc, source, tree, node, links)?;
    let mut told = told;
    let is_call = links.iter().any(|link| link.need.is_argument);
    let behind = if is_call {
        "The outputs of a call depend on all its arguments, whatever the node does with them: a `pre` or `fby` outside the call breaks the cycle."
    } else {
        "A `pre` or `fby` before it breaks the cycle, as in `0 -> pre x`."
    };
    let mut note = format!(in alloc;
        "Perhaps one of these uses is meant of the instant before: choose which one, and its first value. {behind}"
    )?;
    if let Some(link) = links.get(best) {
        told.edit = delayed_at(alloc, source, tree, node, link.variable, link.need.span)?;
    }
    for (place, link) in links.iter().take(MOST_WAYS).enumerate() {
        if place != best
            && let Some(edit) = delayed_at(
                alloc,
                source,
                tree,
                node,
                link.variable,
                link.need.span,
            )?
        {
            push_way(alloc, &mut note, source, link.need.span.start.line, &edit)?;
        }
    }
    told.note = Some(note);
    Ok(told)
}

/// What is said of a cycle: each variable, with the place at which it needs the next; and how one is used with its value of the instant
/// before.
pub fn cycle_cause(
    alloc: Global,
    source: &str,
    tree: &Tree,
    refusal: &Refusal,
) -> Result<Option<Finding>, AllocError> {
    let names = refusal.cycle.names();
    let (Some(node), Some(first)) = (Sought::of(refusal).node(tree), names.first()) else {
        return Ok(None);
    };
    let text = first.as_str();
    let sentence = format!(in alloc; "`{text}` depends on itself within one instant")?;
    let mut told = Finding::new(alloc, sentence, first.len());
    let links = links_of(alloc, node, refusal, &mut told)?;
    if let Some((found, name)) = exchanged_in(alloc, source, node, &links)? {
        return Ok(Some(told_of_exchanged(alloc, source, found, name, told)?));
    }
    let is_one = names.len() == 1 && !links.iter().any(|link| link.need.is_argument);
    let told = if is_one {
        told_of_one(alloc, source, tree, node, text, told)?
    } else {
        told_of_several(alloc, source, tree, node, &links, told)?
    };
    Ok(Some(told))
}
