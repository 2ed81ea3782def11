//! The names that stand for something, and what uses them.

ghost use Rattle.std.specs.Prelude.{◌≡◌, ◌++◌, ◌&&◌, map, is_none, OnOk};
ghost use Rattle.lus_syntax.specs.View.{expression_seen, name_seen, names_seen, part_seen};
ghost use Rattle.lus_syntax.specs.Trees.{parts_of};
ghost use Rattle.lus_source.specs.Tables.{text_of};
ghost use Rattle.lus_source.specs.Named.{is_in, all_new, knows, knows_parts};
ghost use Rattle.lus_source.specs.NameView.{texts, known_seen};
ghost use Rattle.lus_source.specs.ScopeView.{Tested};

use crate::fault::{Cause, Fault};
use crate::places::{Places, Spaces};
use indexmap::IndexSet;
use lus_syntax::{Expr, Label, Lead, Name, Part, Place, Test};
use std::alloc::Global;

/// The names of each space, in the order of their declarations.
pub struct Names {
    pub variables: IndexSet<String>,
    pub constants: IndexSet<String>,
    pub constructors: IndexSet<String>,
    pub types: IndexSet<String>,
    pub nodes: IndexSet<String>,
}

// By hand, so that other functions call it: what a derive drops is proved again in each of them.
impl Drop for Names {
    fn drop(self) {
        let Names {
            variables,
            constants,
            constructors,
            types,
            nodes,
        } = self;
        let_go(variables);
        let_go(constants);
        let_go(constructors);
        let_go(types);
        let_go(nodes);
    }
}

/// Lets a table go.
fn let_go(_table: IndexSet<String>) {}

/// Whether a name is among those of a table.
pub fn has(table: &IndexSet<String>, name: &str) -> bool
    ensures { result ≡ is_in (texts table.now.keys) name.now }
{
    table.contains(name)
}

/// Where a name stands that isn't among those of a table.
pub fn missing(table: &IndexSet<String>, name: &Name) -> Option<Place>
    ensures { is_none result ≡ is_in (texts table.now.keys) (name_seen name.now).text }
{
    if has(table, &name.text) {
        None
    } else {
        Some(name.span.start)
    }
}

/// Adds names to a table; a fault at one that stands there already.
pub fn declare(table: &mut IndexSet<String>, names: &[Name]) -> Result<(), Fault>
    ensures kept { OnOk result (texts table.new.keys ≡ texts table.old.keys ++ map text_of (names_seen names.now)) }
    ensures new { Tested result (all_new (texts table.old.keys) (map text_of (names_seen names.now))) }
{
    for name in names {
        let (_, is_new) = table.insert_full(name.text.clone()?)?;
        if !is_new {
            return Err(Fault::At(name.span.start, Cause::Twice));
        }
    }
    Ok(())
}

impl Names {
    ghost use Rattle.std.specs.Prelude.{◌≡◌, ◌≤◌, [], is_none, length};
    ghost use Rattle.lus_syntax.specs.View.{lead_seen, label_seen, test_seen};
    ghost use Rattle.lus_source.specs.Named.{knows_lead, knows_label, knows_test, knows_name as name_known};
    ghost use Rattle.lus_source.specs.NameView.{known_seen, spaces_seen};

    /// No names.
    pub fn new(alloc: Global) -> Names
        ensures { known_seen result ≡ record { variables = []; constants = []; constructors = []; types = []; nodes = [] } }
    {
        Names {
            variables: IndexSet::new(alloc),
            constants: IndexSet::new(alloc),
            constructors: IndexSet::new(alloc),
            types: IndexSet::new(alloc),
            nodes: IndexSet::new(alloc),
        }
    }

    /// The spaces of these names but the variables, where a place can count each.
    pub fn into_spaces(self) -> Spaces
        requires types { length self.types.keys ≤ 4294967295 }
        requires constants { length self.constants.keys ≤ 4294967295 }
        requires constructors { length self.constructors.keys ≤ 4294967295 }
        requires nodes { length self.nodes.keys ≤ 4294967295 }
        ensures { spaces_seen result ≡ record (known_seen self) { variables = [] } }
    {
        let Names {
            variables,
            constants,
            constructors,
            types,
            nodes,
        } = self;
        let_go(variables);
        Spaces {
            types: Places::new(types),
            constants: Places::new(constants),
            constructors: Places::new(constructors),
            nodes: Places::new(nodes),
        }
    }

    fn unknown_name(&self, name: &Name) -> Option<Place>
        ensures { is_none result ≡ name_known (known_seen self.now) (name_seen name.now).text }
    {
        let text = name.text.as_str();
        if has(&self.variables, text) || has(&self.constants, text) {
            None
        } else {
            missing(&self.constructors, name)
        }
    }

    fn unknown_label(&self, label: &Label) -> Option<Place>
        ensures { is_none result ≡ knows_label (known_seen self.now) (label_seen label.now) }
    {
        match label {
            Label::Truth(_, _) => None,
            Label::Constructor(name) => missing(&self.constructors, name),
        }
    }

    #[tactic(auto, using(crate::proofs::AppendedNames::none_or))]
    pub fn unknown_test(&self, test: &Test) -> Option<Place>
        ensures { is_none result ≡ knows_test (known_seen self.now) (test_seen test.now) }
    {
        match test {
            Test::Holds(variable) => missing(&self.variables, variable),
            Test::Fails(_, variable) => missing(&self.variables, variable),
            Test::Is(label, variable) => {
                missing(&self.variables, variable).or(self.unknown_label(label))
            }
        }
    }

    fn unknown_lead(&self, lead: &Lead) -> Option<Place>
        ensures { is_none result ≡ knows_lead (known_seen self.now) (lead_seen lead.now) }
    {
        match lead {
            Lead::Plain => None,
            Lead::Field(_) => None,
            Lead::Branch(_, label) => self.unknown_label(label),
        }
    }
}

/// The first unknown name of an expression.
#[cycle(unknown)]
#[tactic(auto, using(crate::proofs::AppendedNames::none_or))]
pub fn unknown(names: &Names, source: &Expr) -> Option<Place>
    ensures { is_none result ≡ knows (known_seen names.now) (expression_seen source.now) }
{
    match source {
        Expr::Number(_, _) | Expr::Truth(_, _) => None,
        Expr::Name(name) => names.unknown_name(name),
        Expr::Call(name, arguments) => unknown_in(names, missing(&names.nodes, name), arguments),
        Expr::Structure(name, fields) => unknown_in(names, missing(&names.types, name), fields),
        Expr::Merge(_, variable, branches) => {
            unknown_in(names, missing(&names.variables, variable), branches)
        }
        Expr::Variadic(_, _, operands) => unknown_in(names, None, operands),
        Expr::Field(operand, _) | Expr::Parentheses(_, operand) | Expr::Unary(_, _, operand) => {
            unknown(names, operand)
        }
        Expr::When(operand, test) => unknown(names, operand).or(names.unknown_test(test)),
        Expr::Binary(_, left, right) => unknown(names, left).or(unknown(names, right)),
        Expr::If(_, condition, left, right) => unknown(names, condition)
            .or(unknown(names, left))
            .or(unknown(names, right)),
    }
}

/// What is unknown before parts, else their first unknown name.
#[cycle(unknown)]
fn unknown_in(names: &Names, before: Option<Place>, parts: &[Part]) -> Option<Place>
    ensures { is_none result ≡ (is_none before && knows_parts (known_seen names.now) (parts_of (map part_seen parts.now))) }
{
    if before.is_some() {
        return before;
    }
    for part in parts {
        if let Some(place) = names.unknown_lead(&part.lead) {
            return Some(place);
        }
        if let Some(place) = unknown(names, &part.value) {
            return Some(place);
        }
    }
    None
}
