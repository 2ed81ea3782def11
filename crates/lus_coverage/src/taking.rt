//! Which branches an instant takes.

use crate::branch::width;
use crate::text::Text;
use lus_parts::Part;
use lus_program::Form;
use lus_reference::{has_entry, is_on};
use lus_values::{Memory, Operator, Value};
use lus_worlds::Moment;
use std::alloc::Global;

/// A part of a node's text at an instant of it: the part's place in the text, and what was kept of the text before and is kept behind the
/// instant. So what stands there of a part whose clock is present is its value.
#[derive(Clone, Copy)]
struct Site<'m> {
    place: usize,
    old: &'m Moment,
    new: &'m Moment,
}

impl Site<'_> {
    /// Whether the part behind, the first operand, is this truth value.
    fn is_condition(&self, truth: bool) -> bool {
        match self.new.kept.items().get(self.place.saturating_add(1)) {
            Some(Some(Value::Bool(found))) => *found == truth,
            _ => false,
        }
    }

    /// Whether this is the first instant of the clock of the part behind.
    fn is_first(&self) -> bool {
        !has_entry(self.old.kept.items(), self.place.saturating_add(1))
    }

    /// Whether a part's operand at a place is reached where the part is or isn't. Of an `if` and of an arrow that one is that they give.
    /// What a `pre` keeps and what a call is given are reached whatever becomes of these.
    fn reaches(&self, form: &Form, operand: usize, is_reached: bool) -> bool {
        match form {
            Form::Operate(Operator::If, _) if operand > 0 => {
                is_reached && self.is_condition(operand == 1)
            }
            Form::Arrow(_, _) => is_reached && self.is_first() == (operand == 0),
            Form::Pre(_) | Form::Call(_, _) => true,
            _ => is_reached,
        }
    }

    /// Pushes of each operand of a part whether it is reached, the first one on top.
    fn push_operands(
        &self,
        later: &mut Vec<bool>,
        part: &Part<'_>,
        is_reached: bool,
    ) -> Result<(), Memory> {
        let form = &part.expr.form;
        for operand in (0..width(form)).rev() {
            later.push(self.reaches(form, operand, is_reached))?;
        }
        Ok(())
    }
}

/// One more, at a place of counts.
fn count(counts: &mut [u64], place: usize) {
    if let Some(taken) = counts.get_mut(place) {
        *taken = taken.saturating_add(1);
    }
}

/// Counts the branches in the text of a node that an instant of it takes. A branch is taken where its clock is present and it is reached.
fn take_own(
    alloc: Global,
    text: &Text<'_>,
    old: &Moment,
    new: &Moment,
    counts: &mut [u64],
) -> Result<(), Memory> {
    let mut later = Vec::new(alloc);
    for (place, part) in text.parts.iter().enumerate() {
        let is_wanted = later.pop().unwrap_or(true);
        let is_reached = is_wanted && is_on(&part.clock, new.present, new.row.items());
        if is_reached && matches!(text.choices.get(place), Some(Some(_))) {
            count(counts, place);
        }
        let site = Site { place, old, new };
        site.push_operands(&mut later, part, is_reached)?;
    }
    Ok(())
}

/// Counts the branches that an instant of a node takes, and those of the nodes that it calls: in the counts of each text, a number for
/// each part.
#[cycle(take)]
pub(crate) fn take(
    alloc: Global,
    texts: &[Text<'_>],
    node: u32,
    old: &Moment,
    new: &Moment,
    counts: &mut [Vec<u64>],
) -> Result<(), Memory> {
    if !new.present {
        return Ok(());
    }
    let Some(text) = texts.get(node as usize) else {
        return Ok(());
    };
    if let Some(own) = counts.get_mut(node as usize) {
        take_own(alloc, text, old, new, own)?;
    }
    take_called(alloc, texts, &text.called, &old.called, &new.called, counts)
}

/// The same of called nodes, by the calls' numbers.
#[cycle(take)]
fn take_called(
    alloc: Global,
    texts: &[Text<'_>],
    nodes: &[u32],
    old: &[Moment],
    new: &[Moment],
    counts: &mut [Vec<u64>],
) -> Result<(), Memory> {
    for (call, moment) in new.iter().enumerate() {
        if let (Some(node), Some(before)) = (nodes.get(call), old.get(call)) {
            take(alloc, texts, *node, before, moment, counts)?;
        }
    }
    Ok(())
}
