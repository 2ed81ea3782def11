//! The layouts of types.

ghost use Rattle.std.specs.Prelude.{◌≡◌, IfOk, map, option_map};
ghost use Rattle.lus_program.specs.Sound.{HaveOrder, type_uses};
ghost use Rattle.lus_program.specs.View.{field_of, program_seen};
ghost use Rattle.lus_words.specs.Depths.{AreLaidOut, IsLaidOut};
ghost use Rattle.lus_words.specs.Layouts.{IsLayout};
ghost use Rattle.lus_words.specs.View.{layout_of};

use crate::layout::Layout;
use lus_program::{Field, Kind, Program, Sound, fields_at};
use lus_values::Memory;
use std::alloc::Global;

/// The layout of a type, if structures stand in one another no deeper than so deep.
#[cycle(lay)]
fn layout_within(
    alloc: Global,
    program: &Program,
    kind: Kind,
    deep: usize,
) -> Result<Option<Layout>, Memory>
    ensures { IfOk result (λ found. IsLaidOut (program_seen program.now) kind deep found) }
{
    let Kind::Struct(number) = kind else {
        return Ok(Some(Layout::Word(kind)));
    };
    if deep == 0 {
        return Ok(None);
    }
    match layouts_within(alloc, program, fields_at(program, number), deep - 1)? {
        Some(parts) => Ok(Some(Layout::Parts(parts))),
        None => Ok(None),
    }
}

/// The layouts of fields, if structures stand in one another no deeper than so deep.
#[cycle(lay)]
fn layouts_within(
    alloc: Global,
    program: &Program,
    fields: &[Field],
    deep: usize,
) -> Result<Option<Vec<Layout>>, Memory>
    ensures { let kinds = map (λ f. f.kind) (map field_of fields.now) in
        IfOk result (λ found. AreLaidOut (program_seen program.now) kinds deep (option_map (λ ls. ls.items) found)) }
{
    let mut parts = Vec::new(alloc);
    for field in fields {
        match layout_within(alloc, program, field.kind, deep)? {
            Some(part) => parts.push(part)?,
            None => return Ok(None),
        }
    }
    Ok(Some(parts))
}

/// The layout of a type of a sound program.
pub fn lay_out(alloc: Global, sound: &Sound, kind: Kind) -> Result<Layout, Memory>
    ensures { IfOk result (λ l. IsLayout (program_seen sound.now) kind (layout_of l)) }
{
    let program = sound.program();
    match layout_within(alloc, program, kind, program.types.len() + 1)? {
        Some(found) => Ok(found),
        None => unreachable!(),
    }
}
