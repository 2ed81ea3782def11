//! Parts of a program that stand in comments.

use crate::given::Given;
use lus_faults::{Comment, Finding, Sought, bytes_at, comments_in, place_at};
use lus_syntax::{Name, Node, Span};
use std::alloc::AllocError;

/// A finding with a part of the program that stands in a comment, and no change.
fn outside(
    given: Given<'_>,
    finding: Finding,
    span: Span,
    label: String,
) -> Result<Finding, AllocError> {
    let mut finding = finding;
    finding.relate(span, label)?;
    let note =
        "What stands in a comment is no part of the program: end the comment before what belongs to it.";
    Ok(finding.with_note(given.alloc, note)?.with_edit(None))
}

/// Whether a comment has the end of a node in it, on a line by itself.
fn has_end(comment: Comment<'_>) -> bool {
    for line in comment.text.split('\n') {
        if matches!(line.trim(), "tel" | "tel;" | "tel.") {
            return true;
        }
    }
    false
}

/// The signs of the comment of a node that begins on an earlier line than a place and takes the end of a node out of the program.
fn swallowing(given: Given<'_>, node: &Node, sought: Sought) -> Result<Option<Span>, AllocError> {
    for comment in &comments_of(given, node)? {
        if has_end(*comment) {
            let start = place_at(given.source, comment.start);
            if start.line < sought.line {
                return Ok(Some(Span { start, length: 2 }));
            }
        }
    }
    Ok(None)
}

/// A finding on a name of a node behind a comment that takes the end of a node out of the program, with that comment.
pub fn with_swallowed(
    given: Given<'_>,
    finding: Finding,
    sought: Sought,
) -> Result<Finding, AllocError> {
    let Some(node) = sought.node(given.tree) else {
        return Ok(finding);
    };
    let Some(span) = swallowing(given, node, sought)? else {
        return Ok(finding);
    };
    let label = String::from_str(
        given.alloc,
        "the comment that begins here takes a `tel` out of the program",
    )?;
    outside(given, finding, span, label)
}

/// The line of a comment of a node that reads as an equation of a variable, and the number of the line on which the comment begins.
fn equation_outside(
    given: Given<'_>,
    node: &Node,
    text: &str,
) -> Result<Option<(Span, usize)>, AllocError> {
    for comment in &comments_of(given, node)? {
        if let Some(span) = equation_in(*comment, given.source, text) {
            return Ok(Some((span, place_at(given.source, comment.start).line)));
        }
    }
    Ok(None)
}

/// A finding on a variable without an equation, with the one that stands in a comment, where one does.
pub fn with_comment(
    given: Given<'_>,
    finding: Finding,
    node: &Node,
    name: &Name,
) -> Result<Finding, AllocError> {
    let text = name.text.as_str();
    let Some((span, line)) = equation_outside(given, node, text)? else {
        return Ok(finding);
    };
    let label = format!(in given.alloc;
        "an equation of `{text}` stands here, but in the comment that begins in line {line}"
    )?;
    outside(given, finding, span, label)
}

/// Where a node ends at the latest: at the name of the next one, or where the source does.
fn end_of(given: Given<'_>, node: &Node) -> usize {
    let start = node.name.span.start.byte;
    let mut end = given.source.len();
    for other in &given.tree.nodes {
        let next = other.name.span.start.byte;
        if start < next && next < end {
            end = next;
        }
    }
    end
}

/// The comments of a node, behind its name.
fn comments_of<'g>(given: Given<'g>, node: &Node) -> Result<Vec<Comment<'g>>, AllocError> {
    let start = node.name.span.start.byte;
    let part = bytes_at(given.source, start, end_of(given, node)).unwrap_or("");
    let mut comments = comments_in(given.alloc, part)?;
    for comment in &mut comments {
        comment.start = comment.start.saturating_add(start);
    }
    Ok(comments)
}

/// A line of a comment without the sign that begins the comment.
fn inside_of(line: &str) -> &str {
    for sign in ["--", "/*", "(*"] {
        if let Some(rest) = line.strip_prefix(sign) {
            return rest.trim_start();
        }
    }
    line.trim_start()
}

/// Where the line of a comment begins that reads as an equation of a variable.
fn equation_in(comment: Comment<'_>, source: &str, text: &str) -> Option<Span> {
    let mut at = comment.start;
    for line in comment.text.split('\n') {
        let inside = inside_of(line);
        let is_equation = match inside.strip_prefix(text) {
            Some(rest) => rest.trim_start().starts_with("="),
            None => false,
        };
        if is_equation {
            let offset = line.len().saturating_sub(inside.len());
            return Some(Span {
                start: place_at(source, at.saturating_add(offset)),
                length: inside.trim_end().len(),
            });
        }
        at = at.saturating_add(line.len()).saturating_add(1);
    }
    None
}
