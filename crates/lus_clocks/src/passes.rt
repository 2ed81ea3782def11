//! The checks as passes over a typed source. Contracts see what they give as its program.

ghost use Rattle.std.specs.Prelude.{◌≡◌, IfOk, IfErr, OnErr, OnOk};
ghost use Rattle.lus_syntax.specs.declared.refusal.RefusalNumber.TheVariants as numbers;
ghost use Rattle.lus_program.specs.View.{program_seen};
ghost use Rattle.lus_streams.specs.OnClock.{ProgramOnClocks};
ghost use Rattle.lus_streams.specs.Flags.{IsFlagged};
ghost use Rattle.lus_program.specs.Refusals.{RefusesFor};
ghost use Rattle.lus_program.specs.Resolved.{Resolved};
ghost use Rattle.lus_program.specs.Sound.{IsLimited};

use crate::checking::judge_program;
use crate::fault::{Misplaced, Unflagged};
use crate::flagging::judge_flags;
use lus_program::{Program, Sound};
use lus_syntax::Refusal;
use lus_types::Typed;
use std::alloc::Global;
use std::marker::Model;

/// A sound program that is on clocks.
#[derive(Drop)]
pub struct Clocked {
    sound: Sound,
}

impl Model for Clocked {
    ghost use Rattle.std.specs.Coded.{codes};
    ghost use Rattle.lus_program.specs.contracts.expr.Expr as program_expr;
    ghost use Rattle.lus_program.specs.View.{program_seen};
    ghost use Rattle.lus_streams.specs.OnClock.{ProgramOnClocks};
    ghost use Rattle.lus_program.specs.declared.node.Program.{Program as StoredProgram};

    ghost Value = { StoredProgram };

    ghost coded = { Prim.hlevel (codes, program_expr.the_row.coded) };

    ghost view = { λ c. c.sound };

    ghost invariant = { λ c. ProgramOnClocks (program_seen c.sound) };
}

impl Clocked {
    /// The sound program that is on clocks.
    pub fn sound(&self) -> &Sound
        ensures same { result.now ≡ self.now }
        ensures on_clocks { ProgramOnClocks (program_seen result.now) }
    {
        &self.sound
    }

    /// The program that is on clocks.
    pub fn program(&self) -> &Program
        ensures same { result.now ≡ self.now }
        ensures resolved { Resolved (program_seen result.now) }
        ensures limited { IsLimited (program_seen result.now) }
        ensures on_clocks { ProgramOnClocks (program_seen result.now) }
    {
        self.sound.program()
    }
}

/// Checks that every declared clock, equation and call is on clocks, and gives the source's tree up. A refusal stands at the
/// declared variable, or at the first token of an expression.
pub fn check_clocks(typed: Typed) -> Result<Clocked, Refusal>
    ensures same { IfOk result (λ clocked. clocked ≡ typed.program) }
    ensures ok { OnOk result (ProgramOnClocks (program_seen typed.program)) }
    ensures refused { IfErr result (λ e. (ProgramOnClocks (program_seen typed.program) → ⊥) × (e.number ≡ numbers.Clock)) }
{
    match judge_clocks(typed) {
        Ok(clocked) => Ok(clocked),
        Err(fault) => Err(fault.refusal()),
    }
}

/// As `check_clocks`; says of a place why it isn't on its clock.
pub fn judge_clocks(typed: Typed) -> Result<Clocked, Misplaced>
    ensures same { IfOk result (λ clocked. clocked ≡ typed.program) }
    ensures ok { OnOk result (ProgramOnClocks (program_seen typed.program)) }
    ensures refused { OnErr result (ProgramOnClocks (program_seen typed.program) → ⊥) }
{
    let sound = typed.into_sound();
    match judge_program(sound.program()) {
        Ok(()) => Ok(Clocked { sound }),
        Err(fault) => Err(fault),
    }
}

/// A program that is on clocks, in which nil stands only where flags allow.
#[derive(Drop)]
pub struct Initialised {
    clocked: Clocked,
}

impl Model for Initialised {
    ghost use Rattle.std.specs.Coded.{codes};
    ghost use Rattle.lus_program.specs.contracts.expr.Expr as program_expr;
    ghost use Rattle.lus_program.specs.View.{program_seen};
    ghost use Rattle.lus_streams.specs.Flags.{IsFlagged};
    ghost use Rattle.lus_program.specs.declared.node.Program.{Program as StoredProgram};

    ghost Value = { StoredProgram };

    ghost coded = { Prim.hlevel (codes, program_expr.the_row.coded) };

    ghost view = { λ i. i.clocked };

    ghost invariant = { λ i. IsFlagged (program_seen i.clocked) };
}

impl Initialised {
    /// The program on clocks in which nil stands only where flags allow.
    pub fn clocked(&self) -> &Clocked
        ensures same { result.now ≡ self.now }
        ensures flagged { IsFlagged (program_seen result.now) }
    {
        &self.clocked
    }

    /// The program in which nil stands only where flags allow.
    pub fn program(&self) -> &Program
        ensures same { result.now ≡ self.now }
        ensures resolved { Resolved (program_seen result.now) }
        ensures limited { IsLimited (program_seen result.now) }
        ensures on_clocks { ProgramOnClocks (program_seen result.now) }
        ensures flagged { IsFlagged (program_seen result.now) }
    {
        self.clocked.program()
    }
}

/// Checks that nil stands only where flags allow. A refusal stands at the first token of the operand that may be nil, or
/// at a variable's place on the left of its equation.
pub fn check_nil(alloc: Global, clocked: Clocked) -> Result<Initialised, Refusal>
    ensures same { IfOk result (λ initialised. initialised ≡ clocked) }
    ensures ok { OnOk result (IsFlagged (program_seen clocked)) }
    ensures refused { IfErr result (RefusesFor numbers.Nil (IsFlagged (program_seen clocked))) }
{
    match judge_nil(alloc, clocked) {
        Ok(initialised) => Ok(initialised),
        Err(fault) => Err(fault.refusal),
    }
}

/// As `check_nil`; says of a refusal what mustn't be nil.
pub fn judge_nil(alloc: Global, clocked: Clocked) -> Result<Initialised, Unflagged>
    ensures same { IfOk result (λ initialised. initialised ≡ clocked) }
    ensures ok { OnOk result (IsFlagged (program_seen clocked)) }
    ensures refused { IfErr result (λ e. RefusesFor numbers.Nil (IsFlagged (program_seen clocked)) e.refusal) }
{
    match judge_flags(alloc, clocked.program()) {
        Ok(()) => Ok(Initialised { clocked }),
        Err(fault) => Err(fault),
    }
}
