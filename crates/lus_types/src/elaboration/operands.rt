//! Parts of a form that are elaborated already.

use crate::elaboration::forms::Elaborated;
use lus_program::{Expr, Kind};
use std::alloc::{AllocError, Global};

/// Expressions of the program one by one, and their types.
pub struct Operands {
    pub exprs: Vec<Expr>,
    pub kinds: Vec<Kind>,
}

impl Operands {
    ghost use Rattle.std.specs.Prelude.{◌≡◌, ◌++◌, [], ◌∷◌, IfOk, OnOk};

    /// None so far, with room for so many.
    pub fn with_capacity(alloc: Global, count: usize) -> Result<Operands, AllocError>
        ensures exprs { IfOk result (λ x. x.exprs.items ≡ []) }
        ensures kinds { IfOk result (λ x. x.kinds.items ≡ []) }
    {
        let kinds = Vec::with_capacity(alloc, count)?;
        let exprs = Vec::with_capacity(alloc, count)?;
        Ok(Operands { exprs, kinds })
    }

    /// Appends an expression with its type.
    pub fn push(&mut self, operand: Elaborated) -> Result<(), AllocError>
        ensures exprs { OnOk result (self.new.exprs.items ≡ self.old.exprs.items ++ operand.expr.value ∷ []) }
        ensures kinds { OnOk result (self.new.kinds.items ≡ self.old.kinds.items ++ operand.kind ∷ []) }
    {
        self.kinds.push(operand.kind)?;
        self.exprs.push(Box::into_inner(operand.expr))?;
        Ok(())
    }

    /// The expressions, and their types.
    pub fn into_parts(self) -> (Vec<Expr>, Vec<Kind>)
        ensures { result ≡ (self.exprs, self.kinds) }
    {
        let Operands { exprs, kinds } = self;
        (exprs, kinds)
    }
}

// By hand, so that other functions call it: what a derive drops is proved again in each of them.
impl Drop for Operands {
    fn drop(self) {
        let Operands { exprs: _, kinds: _ } = self;
    }
}
