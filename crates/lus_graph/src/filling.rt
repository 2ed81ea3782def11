//! What things have by what the things have that they use, found once for each.

ghost use Rattle.std.specs.Prelude.{◌≡◌, ◌<◌, ℕ, IfErr, IfOk, MatchOption, length};
ghost use Rattle.lus_values.specs.Lists.{item};
ghost use Rattle.lus_graph.specs.Along.{IsFilled, IsLocal, Solves};
ghost use Rattle.lus_graph.specs.Ways.{IsOrder, Uses};

/// A rule by which each of some things has something, by what the things have that it uses.
///
/// `uses` says what each thing uses, `step` what a thing has by what the others have, `nothing` what the use of a place past the
/// things has, and `fits` what is let through.
pub trait Rule<T> {
    ghost uses: { Self → Uses };

    ghost nothing: { Self → T };

    ghost step: { Self → (ℕ → T) → ℕ → T };

    ghost fits: { Self → T → Type 0 };

    /// What a thing has, where that fits, by a table with what the things have that it uses.
    fn find(&self, thing: usize, table: &[T]) -> Option<T>
        requires { thing < length (uses self.now) }
        ensures { let value = step self.now (item (nothing self.now) table.now) thing in
            MatchOption result (fits self.now value → ⊥) (λ found. (found ≡ value) × fits self.now found) };
}

/// The table filled with what each thing has, along an order that has before each thing those that it uses; or the first thing
/// for which that doesn't fit. Asks the rule once for each thing.
pub fn along<T: Copy, R: Rule<T>>(
    rule: &R,
    order: &[usize],
    mut table: Vec<T>,
) -> Result<Vec<T>, usize>
    requires order { IsOrder (R.uses rule.now) order.now }
    requires size { length table.items ≡ length (R.uses rule.now) }
    requires local { IsLocal (R.uses rule.now) (R.step rule.now) }
    ensures found { IfOk result (λ found. IsFilled (R.uses rule.now) (R.nothing rule.now) (R.step rule.now) (R.fits rule.now) order.now found.items) }
    ensures refused { let uses = R.uses rule.now in
        IfErr result (λ thing. (thing < length uses) × ((at : ℕ → T) → Solves uses (R.nothing rule.now) (R.step rule.now) at → R.fits rule.now (at thing) → ⊥)) }
{
    for thing in order {
        let Some(found) = rule.find(*thing, &table) else {
            return Err(*thing);
        };
        table[*thing] = found;
    }
    Ok(table)
}
