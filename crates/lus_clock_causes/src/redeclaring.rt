//! Variables whose declared clock is at fault: with another one, what defines them and what uses them agrees.

use crate::clock::{Assumed, Clock, Clocks};
use crate::mending::Context;
use crate::placing::{Misplaced, bare, misplaced_in};
use lus_declarations::{alone, mended_by, redeclaring, type_span};
use lus_faults::{Edit, Role, Variable, joined, slice_of, variable_named};
use lus_syntax::{Expr, Group, Name};
use std::alloc::{AllocError, Global};

/// The fewest equations that a change of a declaration mends, where it is what is wrong: what defines a variable, and a use.
pub const FEWEST_MENDED: usize = 2;

/// The most variables that get a clock with one that they are computed from.
const MOST_USERS: usize = 10;

/// A variable that is declared with a wrong clock, the clock that its equations agree on, how many of them that mends, the variables that
/// are computed from it and get the clock too, and the change of the declarations.
#[derive(Drop)]
pub struct Redeclared<'t> {
    pub name: &'t Name,
    pub clock: Clock<'t>,
    pub mended: usize,
    pub users: Vec<&'t Name>,
    pub edit: Option<Edit>,
}

/// Whether each equation of a node has an expression that isn't on the clock of its place.
fn faults_in(alloc: Global, clocks: Clocks<'_>) -> Result<Vec<bool>, AllocError> {
    let mut faults = Vec::new(alloc);
    for equation in &clocks.node.equations {
        faults.push(!misplaced_in(alloc, clocks, equation)?.is_empty())?;
    }
    Ok(faults)
}

/// Whether each equation of a node has an expression that isn't on the clock of its place, where some variables have another clock.
fn faults_with(
    alloc: Global,
    clocks: Clocks<'_>,
    names: &[&Name],
    clock: Clock<'_>,
) -> Result<Vec<bool>, AllocError> {
    let assumed = Some(Assumed { names, clock });
    faults_in(alloc, Clocks { assumed, ..clocks })
}

/// How many equations are mended by another clock of some variables: none where one fails then that was right.
fn mended_with(
    alloc: Global,
    clocks: Clocks<'_>,
    before: &[bool],
    names: &[Name],
    clock: Clock<'_>,
) -> Result<usize, AllocError> {
    let mut among = Vec::new(alloc);
    for name in names {
        among.push(name)?;
    }
    Ok(mended_by(before, &faults_with(alloc, clocks, &among, clock)?))
}

/// Whether a variable may have a clock: an input keeps its own, an output isn't on a local's, and none tests itself.
fn may_have(clocks: Clocks<'_>, variable: Variable<'_>, clock: Clock<'_>) -> bool {
    let Some(tick) = clock.newest else {
        return variable.role != Role::Input;
    };
    let text = tick.variable.text.as_str();
    let is_of_local = match variable_named(clocks.node, text) {
        Some(tested) => tested.role == Role::Local,
        None => true,
    };
    match variable.role {
        Role::Input => false,
        Role::Output => !is_of_local && variable.name.text.as_str() != text,
        Role::Local => variable.name.text.as_str() != text,
    }
}

/// A type with a clock, as they stand in a declaration.
fn declared_as(alloc: Global, type_name: &str, clock: Clock<'_>) -> Result<String, AllocError> {
    match clock.newest {
        Some(tick) => {
            let test = tick.test(alloc)?;
            format!(in alloc; "{type_name} when {test}")
        }
        None => String::from_str(alloc, type_name),
    }
}

/// A variable with a clock, where so many equations are mended by it and none fails that was right. The other variables of its group get it
/// too, where that mends more.
fn with_clock<'t>(
    alloc: Global,
    on: Context<'t>,
    name: &'t Name,
    clock: Clock<'t>,
    fewest: usize,
) -> Result<Option<Redeclared<'t>>, AllocError> {
    let Some(variable) = variable_named(on.clocks.node, name.text.as_str()) else {
        return Ok(None);
    };
    if !may_have(on.clocks, variable, clock) {
        return Ok(None);
    }
    let before = faults_in(alloc, on.clocks)?;
    let group = variable.group;
    let one = alone(group, name.text.as_str());
    let mended = mended_with(alloc, on.clocks, &before, one, clock)?;
    let mended_by_all = if group.names.len() == 1 {
        mended
    } else {
        mended_with(alloc, on.clocks, &before, group.names.as_slice(), clock)?
    };
    if mended < fewest && mended_by_all < fewest {
        return Ok(None);
    }
    let names = if mended_by_all > mended {
        group.names.as_slice()
    } else {
        one
    };
    let type_name = slice_of(on.source, type_span(&group.type_name));
    let declared = declared_as(alloc, type_name, clock)?;
    let edit = redeclaring(alloc, on.source, group, names, &declared)?;
    Ok(Some(Redeclared {
        name: variable.name,
        clock,
        mended: mended.max(mended_by_all),
        users: Vec::new(alloc),
        edit,
    }))
}

/// The variable that the first equation defines that fails, where it didn't before, if it is the only one there and may have a clock.
/// Nothing where no equation fails so.
fn next_user<'t>(
    clocks: Clocks<'t>,
    before: &[bool],
    after: &[bool],
    clock: Clock<'_>,
) -> Option<Option<&'t Name>> {
    for (place, equation) in clocks.node.equations.iter().enumerate() {
        let was_right = before.get(place).copied() == Some(false);
        if was_right && after.get(place).copied().unwrap_or(true) {
            return Some(match equation.left.as_slice() {
                [left] => match variable_named(clocks.node, left.text.as_str()) {
                    Some(variable) if may_have(clocks, variable, clock) => Some(variable.name),
                    _ => None,
                },
                _ => None,
            });
        }
    }
    None
}

/// A variable with all that are computed from it, where with a clock of theirs no equation fails that was right.
fn with_users<'t>(
    alloc: Global,
    clocks: Clocks<'t>,
    name: &'t Name,
    clock: Clock<'_>,
) -> Result<Option<Vec<&'t Name>>, AllocError> {
    let before = faults_in(alloc, clocks)?;
    let mut names = Vec::new(alloc);
    names.push(name)?;
    for _turn in 0..MOST_USERS {
        let after = faults_with(alloc, clocks, &names, clock)?;
        match next_user(clocks, &before, &after, clock) {
            None if mended_by(&before, &after) > 0 => return Ok(Some(names)),
            Some(Some(user)) if !is_among(&names, user) => names.push(user)?,
            _ => return Ok(None),
        }
    }
    Ok(None)
}

/// Whether a name is among some.
fn is_among(names: &[&Name], name: &Name) -> bool {
    names
        .iter()
        .any(|other| other.text.as_str() == name.text.as_str())
}

/// The names of a group that are among some, where they stand together.
fn together<'t>(group: &'t Group, names: &[&Name]) -> &'t [Name] {
    let of_group = group.names.as_slice();
    let before = of_group
        .iter()
        .take_while(|name| !is_among(names, name))
        .count();
    let rest = of_group.get(before..).unwrap_or(&[]);
    let count = rest.iter().take_while(|name| is_among(names, name)).count();
    rest.get(..count).unwrap_or(&[])
}

/// The change of a source that declares some variables of a node with a clock; nothing where those of a group don't stand together.
fn declaring(
    alloc: Global,
    on: Context<'_>,
    names: &[&Name],
    clock: Clock<'_>,
) -> Result<Option<Edit>, AllocError> {
    let mut edits = Vec::new(alloc);
    let mut count = 0usize;
    for group in on
        .clocks
        .node
        .outputs
        .iter()
        .chain(on.clocks.node.locals.iter())
    {
        let some = together(group, names);
        if !some.is_empty() {
            let type_name = slice_of(on.source, type_span(&group.type_name));
            let declared = declared_as(alloc, type_name, clock)?;
            if let Some(edit) = redeclaring(alloc, on.source, group, some, &declared)? {
                edits.push(edit)?;
            }
            count = count.saturating_add(some.len());
        }
    }
    if count == names.len() {
        joined(alloc, on.source, &edits)
    } else {
        Ok(None)
    }
}

/// The only variable on the left of the equation with a clock of the right side, and with it all that are computed from it.
pub fn declaration_with_users<'t>(
    alloc: Global,
    on: Context<'t>,
    clock: Clock<'t>,
) -> Result<Option<Redeclared<'t>>, AllocError> {
    let [left] = on.equation.left.as_slice() else {
        return Ok(None);
    };
    let Some(variable) = variable_named(on.clocks.node, left.text.as_str()) else {
        return Ok(None);
    };
    if !may_have(on.clocks, variable, clock) {
        return Ok(None);
    }
    let Some(names) = with_users(alloc, on.clocks, variable.name, clock)? else {
        return Ok(None);
    };
    let edit = declaring(alloc, on, &names, clock)?;
    Ok(Some(Redeclared {
        name: variable.name,
        clock,
        mended: 1,
        users: names,
        edit,
    }))
}

/// The variable that an expression is, where its declaration is what is wrong if the expression is on another clock than its place.
pub fn declaration_of_name<'t>(
    alloc: Global,
    on: Context<'t>,
    found: Misplaced<'t>,
) -> Result<Option<Redeclared<'t>>, AllocError> {
    match bare(found.expr) {
        Expr::Name(name) => with_clock(alloc, on, name, found.wanted, FEWEST_MENDED),
        _ => Ok(None),
    }
}

/// The only variable on the left of the equation with a clock of the right side, where that mends an equation and none fails that was
/// right.
pub fn declaration_of_left<'t>(
    alloc: Global,
    on: Context<'t>,
    clock: Clock<'t>,
) -> Result<Option<Redeclared<'t>>, AllocError> {
    match on.equation.left.first() {
        Some(left) if on.equation.left.len() == 1 => with_clock(alloc, on, left, clock, 1),
        _ => Ok(None),
    }
}

/// The variable on the left of the equation, where it may have the clock of an expression that stands at a place of its own clock.
pub fn may_be_declared<'t>(
    on: Context<'t>,
    left: &'t Name,
    found: Misplaced<'_>,
) -> Option<Variable<'t>> {
    let variable = variable_named(on.clocks.node, left.text.as_str())?;
    let own = on.clocks.clock(left.text.as_str())?;
    (own.is(found.wanted) && may_have(on.clocks, variable, found.has)).then_some(variable)
}

/// The change that declares the variable of a result with the result's clock, whichever equations use it.
pub fn declaration_of_result<'t>(
    alloc: Global,
    on: Context<'t>,
    left: &'t Name,
    clock: Clock<'t>,
) -> Result<Option<Edit>, AllocError> {
    match with_clock(alloc, on, left, clock, 0)? {
        Some(declared) => Ok(declared.edit),
        None => Ok(None),
    }
}
