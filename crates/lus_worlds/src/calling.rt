//! Which parts of a node's text are calls.

ghost use Rattle.std.specs.Prelude.{◌≡◌, ◌++◌, IfOk, OnOk};
ghost use Rattle.lus_worlds.specs.Finding.{call_place, call_places};

use lus_parts::Part;
use lus_reference::callee;
use lus_values::Memory;
use std::alloc::Global;

/// Appends the place of a part, if it is a call.
fn push_site(part: &Part<'_>, place: usize, sites: &mut Vec<usize>) -> Result<(), Memory>
    ensures { OnOk result (sites.new.items ≡ sites.old.items ++ call_place part.now place) }
{
    match callee(part.expr) {
        Some(_) => {
            sites.push(place)?;
            Ok(())
        }
        None => Ok(()),
    }
}

/// The places among these parts of those that are calls: that of each call stands at its number.
pub fn sites_of(alloc: Global, parts: &[Part<'_>]) -> Result<Vec<usize>, Memory>
    ensures { IfOk result (λ sites. sites.items ≡ call_places parts.now 0) }
{
    let mut sites = Vec::new(alloc);
    for (place, part) in parts.iter().enumerate() {
        push_site(part, place, &mut sites)?;
    }
    Ok(sites)
}
