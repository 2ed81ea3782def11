//! The code of all classes.

ghost use Rattle.std.specs.Prelude.{◌≡◌, ◌≢◌, ◌<◌, ◌^◌, ℕ, IfOk, List, Some, length, slice_get};
ghost use Rattle.lus_graph.specs.Ways.{IsOrder};
ghost use Rattle.lus_classes.specs.Passing.{PassGiven};
ghost use Rattle.lus_orders.specs.Classes.{AreFramed};
ghost use Rattle.lus_emission.specs.Made.{AreBlank, AreWithin, HaveCode};
ghost use Rattle.lus_emission.specs.Sources.{AreFew, CanAllBeEmitted, HaveParts, KeepTo, class_uses};

use crate::class::emit_class;
use lus_instructions::{Class, Part};
use lus_orders::Class as Emitted;
use lus_values::Memory;
use std::alloc::Global;
use std::mem;

/// How many orders the code of a class has at most that gets longer because calls are unfolded, and that of all classes.
const MOST: usize = 4_096;

const MOST_IN_ALL: usize = 131_072;

/// So many classes that have no code yet.
fn without_code(alloc: Global, count: usize) -> Result<Vec<Emitted>, Memory>
    ensures size { IfOk result (λ emitted. length emitted.items ≡ count) }
    ensures blank { IfOk result (λ emitted. AreBlank emitted.items) }
{
    let mut emitted = Vec::with_capacity(alloc, count)?;
    for _class in 0..count {
        emitted.push(Emitted {
            variables: 0,
            own: 0,
            behind: 0,
            cells: 0,
            code: Vec::new(alloc),
            others: Vec::new(alloc),
            calls: Vec::new(alloc),
        })?;
    }
    Ok(emitted)
}

/// The parts of a class, which are handed over.
fn taken(alloc: Global, parts: &mut [Vec<Part>], place: usize) -> Vec<Part>
    requires { place < length parts.old }
    ensures taken { slice_get parts.old place ≡ Some result }
    ensures others { (g : ℕ) → g ≢ place → slice_get parts.new g ≡ slice_get parts.old g }
    ensures size { length parts.new ≡ length parts.old }
{
    mem::replace(&mut parts[place], Vec::new(alloc))
}

/// Gives classes the code of their parts, which are handed over, in an order in which each class comes after those that it calls. Where
/// each keeps to a count, its code has no more cells.
pub fn emit_classes(
    alloc: Global,
    order: &[usize],
    classes: &[Class],
    parts: &mut [Vec<Part>],
) -> Result<Vec<Emitted>, Memory>
    requires classes { CanAllBeEmitted classes.now }
    requires order { IsOrder (class_uses classes.now) order.now }
    requires parts { HaveParts classes.now parts.old }
    requires size { length parts.old ≡ length classes.now }
    requires few { AreFew classes.now }
    requires many { length classes.now < 2 ^ 32 }
    ensures size { IfOk result (λ emitted. length emitted.items ≡ length classes.now) }
    ensures framed { IfOk result (λ emitted. AreFramed emitted.items) }
    ensures code { IfOk result (λ emitted. PassGiven classes.now → HaveCode classes.now emitted.items) }
    ensures within { IfOk result (λ emitted. (counts : List ℕ) → KeepTo counts classes.now → AreWithin counts emitted.items) }
{
    let mut emitted = without_code(alloc, classes.len())?;
    let mut left = MOST_IN_ALL;
    for place in order {
        let own = taken(alloc, parts, *place);
        let most = left.min(MOST) as u32;
        let code = emit_class(alloc, &emitted, &classes[*place], own, most)?;
        left = left.saturating_sub(code.code.len());
        emitted[*place] = code;
    }
    Ok(emitted)
}
