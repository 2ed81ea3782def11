//! The walk along uses, depth first.

ghost use Rattle.std.specs.Prelude.{◌≡◌, ℕ, ◌<◌, ◌≤◌, length, drop, IfOk, IfErr, OnOk, Contains};
ghost use Rattle.lus_values.specs.Lists.{item};
ghost use Rattle.lus_graph.specs.Ways.{IsOrder};
ghost use Rattle.lus_graph.specs.Walks.{uses_of, IsSound, IsCycleError, IsReached, IsTurned, new_count, mark_at};
ghost use Rattle.lus_graph.specs.declared.walk.Mark.TheVariants as marks;
ghost use Rattle.lus_graph.specs.declared.walk.GraphError.TheVariants as errors;

use std::alloc::{AllocError, AllocFailed, Global};

/// How far the walk is with a thing.
#[derive(Clone, Copy)]
enum Mark {
    /// Not met yet.
    New,
    /// On the path, at this place.
    Open(usize),
    /// In the order.
    Done,
}

/// Why there is no order.
#[derive(Debug, Drop)]
pub enum GraphError {
    Memory,
    /// Each thing uses the next, the last the first, none stands twice, and the least is the first.
    Cycle(Vec<usize>),
}

impl From<AllocError> for GraphError {
    ghost from_gives = { λ _ e. e ≡ errors.Memory };

    fn from(_error: AllocError) -> GraphError {
        GraphError::Memory
    }
}

impl<T: Drop> From<AllocFailed<T>> for GraphError {
    ghost from_gives = { λ _ e. e ≡ errors.Memory };

    fn from(_error: AllocFailed<T>) -> GraphError {
        GraphError::Memory
    }
}

/// Where the walk stands.
#[derive(Drop)]
struct Walk {
    marks: Vec<Mark>,
    /// The things whose uses are being visited, each of which uses the next.
    path: Vec<usize>,
    order: Vec<usize>,
}

/// The things below `uses.len()` in an order in which each comes after the things that it uses, or a cycle.
///
/// `uses` has for each thing the places of those that it uses; a place past the end is a use of nothing. Linear in things
/// and uses; the recursion is as deep as the longest way.
pub fn order_of(alloc: Global, uses: &[Vec<u32>]) -> Result<Vec<usize>, GraphError>
    ensures order { IfOk result (λ order. IsOrder (uses_of uses.now) order.items) }
    ensures cycle { IfErr result (IsCycleError (uses_of uses.now)) }
{
    let mut walk = Walk {
        marks: vec![in alloc; Mark::New; uses.len()]?,
        path: Vec::new(alloc),
        order: Vec::new(alloc),
    };
    for thing in 0..uses.len() {
        meet(alloc, uses, thing, &mut walk)?;
    }
    Ok(walk.order)
}

/// Puts a new thing into the order, after all that it leads to.
#[cycle(visiting)]
fn visit(alloc: Global, uses: &[Vec<u32>], thing: usize, walk: &mut Walk) -> Result<(), GraphError>
    requires sound { IsSound (uses_of uses.now) walk.old.marks.items walk.old.path.items walk.old.order.items }
    requires new { mark_at walk.old.marks.items thing ≡ marks.New }
    requires within { thing < length uses.now }
    requires reached { IsReached (uses_of uses.now) walk.old.path.items thing }
    ensures sound { OnOk result (IsSound (uses_of uses.now) walk.new.marks.items walk.new.path.items walk.new.order.items) }
    ensures path { OnOk result (walk.new.path.items ≡ walk.old.path.items) }
    ensures done { OnOk result (Contains walk.new.order.items thing) }
    ensures kept { OnOk result ((x : ℕ) → Contains walk.old.order.items x → Contains walk.new.order.items x) }
    ensures fewer { OnOk result (new_count walk.new.marks.items ≤ new_count walk.old.marks.items) }
    ensures cycle { IfErr result (IsCycleError (uses_of uses.now)) }
{
    walk.marks[thing] = Mark::Open(walk.path.len());
    walk.path.push(thing)?;
    for place in &uses[thing] {
        meet(alloc, uses, *place as usize, walk)?;
    }
    walk.path.pop();
    walk.marks[thing] = Mark::Done;
    walk.order.push(thing)?;
    Ok(())
}

/// Meets a thing that the last of the path uses, if the path has any: visits a new one, finds a cycle at an open one.
#[cycle(visiting)]
fn meet(alloc: Global, uses: &[Vec<u32>], used: usize, walk: &mut Walk) -> Result<(), GraphError>
    requires sound { IsSound (uses_of uses.now) walk.old.marks.items walk.old.path.items walk.old.order.items }
    requires reached { IsReached (uses_of uses.now) walk.old.path.items used }
    ensures sound { OnOk result (IsSound (uses_of uses.now) walk.new.marks.items walk.new.path.items walk.new.order.items) }
    ensures path { OnOk result (walk.new.path.items ≡ walk.old.path.items) }
    ensures done { OnOk result (used < length uses.now → Contains walk.new.order.items used) }
    ensures kept { OnOk result ((x : ℕ) → Contains walk.old.order.items x → Contains walk.new.order.items x) }
    ensures fewer { OnOk result (new_count walk.new.marks.items ≤ new_count walk.old.marks.items) }
    ensures cycle { IfErr result (IsCycleError (uses_of uses.now)) }
{
    let Some(mark) = walk.marks.get(used).copied() else {
        return Ok(());
    };
    match mark {
        Mark::New => visit(alloc, uses, used, walk),
        Mark::Open(start) => Err(GraphError::Cycle(cycle_from(alloc, &walk.path, start)?)),
        Mark::Done => Ok(()),
    }
}

/// The path from a place on, turned so that its least thing comes first.
fn cycle_from(alloc: Global, path: &[usize], start: usize) -> Result<Vec<usize>, AllocError>
    requires within { start < length path.now }
    ensures { IfOk result (λ cycle. IsTurned (drop start path.now) cycle.items) }
{
    let mut cycle = path[start..].to_vec(alloc)?;
    let least = least_place(&cycle);
    cycle.rotate_left(least);
    Ok(cycle)
}

/// Where the least item stands.
fn least_place(items: &[usize]) -> usize
    requires some { 0 < length items.now }
    ensures within { result < length items.now }
    ensures least { (k : ℕ) → k < length items.now → item 0 items.now result ≤ item 0 items.now k }
{
    let mut least = 0;
    for place in 1..items.len() {
        if items[place] < items[least] {
            least = place;
        }
    }
    least
}
