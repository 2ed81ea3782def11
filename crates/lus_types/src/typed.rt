//! Typed sources.

ghost use Rattle.std.specs.Prelude.{◌≡◌};
ghost use Rattle.lus_syntax.specs.View.{tree_seen};
ghost use Rattle.lus_program.specs.View.{program_seen};
ghost use Rattle.lus_source.specs.Meaning.{program_of};
ghost use Rattle.lus_source.specs.Refusals.{WellFormed};
ghost use Rattle.lus_types.specs.TypedPrograms.{IsTypedSource};

use lus_program::Sound;
use lus_syntax::Tree;
use std::marker::Model;

/// A source's tree, which is well typed, within all its limits and without recursion, and the sound program that it means.
/// Contracts see both.
pub struct Typed {
    tree: Tree,
    sound: Sound,
}

impl Model for Typed {
    ghost use Rattle.std.specs.Coded.{codes};
    ghost use Rattle.lus_syntax.specs.contracts.tree.Expr as source_expr;
    ghost use Rattle.lus_program.specs.contracts.expr.Expr as program_expr;
    ghost use Rattle.lus_types.specs.TypedPrograms.{IsTypedSource, TypedProgram};

    ghost Value = { TypedProgram };

    ghost coded = { Prim.hlevel (codes, source_expr.the_row.coded, program_expr.the_row.coded) };

    ghost view = { λ t. record { tree = t.tree; program = t.sound } };

    ghost invariant = { λ t. IsTypedSource t.tree t.sound };
}

impl Typed {
    /// A source with its program.
    pub(crate) fn new(tree: Tree, sound: Sound) -> Typed
        requires { IsTypedSource tree sound }
        ensures tree { result.tree ≡ tree }
        ensures program { result.program ≡ sound }
    {
        Typed { tree, sound }
    }

    /// The source.
    pub fn tree(&self) -> &Tree
        ensures same { result.now ≡ self.now.tree }
        ensures formed { WellFormed (tree_seen result.now) }
    {
        &self.tree
    }

    /// The program that it means.
    pub fn sound(&self) -> &Sound
        ensures same { result.now ≡ self.now.program }
        ensures means { program_seen result.now ≡ program_of (tree_seen self.now.tree) }
    {
        &self.sound
    }

    /// The program that it means; the source is given up.
    pub fn into_sound(self) -> Sound
        ensures { result ≡ self.program }
    {
        let Typed { tree: _, sound } = self;
        sound
    }
}

// By hand, so that crates above call it: what a derive drops is proved again in each of them.
impl Drop for Typed {
    fn drop(self) {
        let Typed { tree: _, sound: _ } = self;
    }
}
