//! Branches and fields in the order in which their type declares them.

ghost use Rattle.std.specs.Prelude.{◌≡◌, ◌≢◌, ◌<◌, ◌≤◌, ℕ, IfSome, MatchOption, is_some, length, slice_index};
ghost use Rattle.lus_program.specs.Programs.{Operands as Meanings};
ghost use Rattle.lus_source.specs.Scopes.{Scope};
ghost use Rattle.lus_source.specs.Labels.{each_once};
ghost use Rattle.lus_source.specs.Meaning.{in_order};
ghost use Rattle.lus_types.specs.Wholes.{AllMean};

use crate::elaboration::operands::Operands;

/// Where a place stands, from the index of the same number on.
fn index_from(places: &[u32], place: usize) -> Option<usize>
    ensures { MatchOption result ((k : ℕ) → place ≤ k → k < length places.now → slice_index places.now k ≢ place)
        (λ i. (place ≤ i) × (i < length places.now) × (slice_index places.now i ≡ place)) }
{
    for index in place..places.len() {
        if place == places[index] as usize {
            return Some(index);
        }
    }
    None
}

/// The operands in the order of the places beside them, where each place below `count` stands exactly once and no other
/// does.
pub fn arranged(count: usize, mut places: Vec<u32>, mut operands: Operands) -> Option<Operands>
    requires exprs { length operands.exprs.items ≡ length places.items }
    requires kinds { length operands.kinds.items ≡ length places.items }
    ensures once { is_some result ≡ each_once count places.items }
    ensures arranged { IfSome result (λ x. (s : Scope) (es : Meanings) → AllMean s operands es
        → AllMean s x (in_order count places.items es)) }
{
    if places.len() != count {
        return None;
    }
    for place in 0..count {
        let index = index_from(&places, place)?;
        places.swap(place, index);
        operands.exprs.swap(place, index);
        operands.kinds.swap(place, index);
    }
    Some(operands)
}
