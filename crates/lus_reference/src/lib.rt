//! Values and streams of a program as they are defined, found out slowly: what faster evaluations are tried on.
#![tactic(auto)]

ghost use Rattle.lus_reference.specs.Laws.{ValuesAreKept};
ghost use Rattle.lus_reference.specs.Needed.{NeedsSuffice};

mod cause;
mod counting;
mod definition;
mod entries;
mod passing;
mod places;
mod renewal;
mod value;
mod values;

pub use cause::{AtFault, Operation};
pub use definition::{callee, define};
pub use entries::{entry_at, has_entry};
pub use passing::pass;
pub use places::{Place, places_of};
pub use renewal::{Renewed, is_on, renew};

/// Nothing is kept before the first instant; after an instant without a fault the values of the parts on present clocks are.
pub fn values_are_kept()
    ensures { ValuesAreKept }
{}

/// Instants that agree on what is needed have the same clocks, the same values of expressions and the same inputs of calls: beside the
/// past these rest on the base, on the entries of the variables that are needed, and on the calls outside of `pre`.
pub fn needs_suffice()
    ensures { NeedsSuffice }
{}
