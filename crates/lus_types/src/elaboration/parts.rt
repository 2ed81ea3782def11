//! What stands before the parts of a form, and which node or operation the form applies.

ghost use Rattle.std.specs.Prelude.{◌≡◌, IfOk, length, option_map};
ghost use Rattle.lus_syntax.specs.View.{name_seen, lead_seen};
ghost use Rattle.lus_source.specs.Meaning.{are_arguments as arguments_alone, list_operation as operation_of_list};
ghost use Rattle.lus_source.specs.ScopeView.{scope_of};
ghost use Rattle.lus_types.specs.Wholes.{Finds, called as called_node, member_place as place_of_member, member_places as places_of_members, parts_seen};

use crate::elaboration::forms::{label_place, place_of};
use crate::elaboration::kinds::{member, results, unlike};
use lus_program::Kind;
use lus_source::{Cause, Fault, Scope, Whole, field};
use lus_syntax::{Label, Lead, ListOperator, Name, Part, Place};
use lus_values::Op;
use std::alloc::Global;

/// Whether parts are arguments or operands: nothing stands before them.
pub fn are_arguments(parts: &[Part]) -> bool
    ensures { result ≡ arguments_alone (parts_seen parts.now) }
{
    for part in parts {
        match &part.lead {
            Lead::Plain => {}
            _ => return false,
        }
    }
    true
}

/// The node that is called with arguments alone, of these types, and the types of what it gives.
pub fn called<'a>(
    scope: &'a Scope,
    name: &Name,
    arguments: &[Part],
    kinds: &[Kind],
) -> Option<(u32, &'a [Kind])>
    ensures { option_map (λ x. (x.0, x.1.now)) result
        ≡ called_node (scope_of scope.now) (name_seen name.now).text (parts_seen arguments.now) kinds.now }
{
    match scope.node(&name.text) {
        Some(node) if are_arguments(arguments) => {
            Some((node.place, results(scope, node.place, kinds)?))
        }
        _ => None,
    }
}

/// Why a node isn't called with arguments of these types.
pub fn miscalled(scope: &Scope, name: &Name, kinds: &[Kind]) -> Cause {
    match scope.node(&name.text) {
        Some(node) => unlike(Whole::Call, &node.inputs, kinds),
        None => Cause::Unsaid,
    }
}

/// The operation of an operator before a list.
pub fn list_operation(op: ListOperator) -> Op
    ensures { result ≡ operation_of_list op }
{
    match op {
        ListOperator::AtMostOne => Op::AtMostOne,
        ListOperator::Nor => Op::Nor,
    }
}

/// What a type declares, and parts name: the branches of a merge its constructors, the values of a structure its fields.
#[derive(Clone, Copy)]
pub enum Members {
    Constructors,
    Fields,
}

/// The place of what a part names.
fn member_place(scope: &Scope, members: Members, kind: Kind, lead: &Lead) -> Option<u32>
    ensures { result ≡ place_of_member (scope_of scope.now) members kind (lead_seen lead.now) }
{
    match (members, lead) {
        (Members::Constructors, Lead::Branch(_, label)) => label_place(scope, kind, label),
        (Members::Fields, Lead::Field(name)) => {
            Some(field(scope.fields_of(kind), &name.text)?.place)
        }
        _ => None,
    }
}

/// How many parts name the member at a place.
fn times(scope: &Scope, members: Members, kind: Kind, parts: &[Part], place: usize) -> usize {
    let mut times = 0usize;
    for part in parts {
        if let Some(found) = member_place(scope, members, kind, &part.lead)
            && found as usize == place
        {
            times = times.saturating_add(1);
        }
    }
    times
}

/// Which of so many members isn't named exactly once by parts, the first of which has this type: one that is named several times, else
/// one that isn't named.
pub fn miscounted(
    scope: &Scope,
    members: Members,
    kind: Kind,
    parts: &[Part],
    count: usize,
    first: Option<Kind>,
) -> Cause {
    let mut cause = Cause::Unsaid;
    for place in 0..count {
        let times = times(scope, members, kind, parts, place);
        let found = Cause::Times(member(place, kind), times, first);
        if times > 1 {
            return found;
        }
        if times == 0 && cause == Cause::Unsaid {
            cause = found;
        }
    }
    cause
}

/// The places of what parts name.
pub fn member_places(
    alloc: Global,
    scope: &Scope,
    members: Members,
    kind: Kind,
    parts: &[Part],
) -> Result<Vec<u32>, Fault>
    ensures places { Finds result (λ ps. ps.items) (places_of_members (scope_of scope.now) members kind (parts_seen parts.now)) }
    ensures alike { IfOk result (λ ps. length ps.items ≡ length parts.now) }
{
    let mut places = Vec::new(alloc);
    for part in parts {
        let Some(place) = member_place(scope, members, kind, &part.lead) else {
            return Err(Fault::At(part_place(part), Cause::Lacks(kind)));
        };
        places.push(place)?;
    }
    Ok(places)
}

/// The place of a part: its field, its label, or its value.
fn part_place(part: &Part) -> Place {
    match &part.lead {
        Lead::Plain => place_of(&part.value),
        Lead::Field(name) => name.span.start,
        Lead::Branch(_, label) => match &**label {
            Label::Constructor(name) => name.span.start,
            Label::Truth(_, span) => span.start,
        },
    }
}
