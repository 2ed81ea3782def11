//! Texts become programs, or are refused.
ghost use Rattle.std.specs.Prelude.{◌≡◌, ◌≢◌, false};
ghost use Rattle.lus_syntax.specs.declared.refusal.RefusalNumber.TheVariants as numbers;
ghost use Rattle.lus_shared.specs.MachineSpecs.Acceptance.{IsRefused};
ghost use Rattle.lus_foreign.specs.Holds.{has_content};
ghost use Rattle.lus_c.specs.Held.{IsOkay, IsRefusal, HeldAccepted};
ghost use Rattle.lus_c.specs.Refusals.{code, IsWritten, TellsRefusal};

use crate::status::{MEMORY, REFUSED, TEXT, fill};
use lus_foreign::{Content, HANDLE, Handle};
use lus_shared::lus_machine;
use lus_syntax::{Refusal, RefusalNumber};
use std::alloc::Global;
use std::str;
use std::sync::Arc;

/// Why a text is refused.
#[repr(C)]
pub struct Refused {
    /// 1 to 11, of E1 to E11.
    number: u32,
    line: u32,
    column: u32,
    /// How many variables the cycle has.
    cycle: u32,
    /// How many bytes their names take, with a 0 behind each.
    bytes: u64,
}

fn number_of(number: RefusalNumber) -> u32
    ensures { result ≡ code number }
{
    match number {
        RefusalNumber::Lexical => 1,
        RefusalNumber::Syntax => 2,
        RefusalNumber::Unsupported => 3,
        RefusalNumber::Name => 4,
        RefusalNumber::Type => 5,
        RefusalNumber::Clock => 6,
        RefusalNumber::Cycle => 7,
        RefusalNumber::Nil => 8,
        RefusalNumber::Recursion => 9,
        RefusalNumber::Limit => 10,
        RefusalNumber::Memory => 11,
    }
}

/// Writes bytes from a place on, as far as the array has room; answers the place behind them.
fn put_bytes(room: &mut [u8], start: u64, bytes: &[u8]) -> u64 {
    let mut at = start;
    for byte in bytes {
        if let Some(place) = room.get_mut(at as usize) {
            *place = *byte;
        }
        at = at.saturating_add(1);
    }
    at
}

fn write_refusal(refused: &mut Refused, names: &mut [u8], refusal: &Refusal)
    ensures { IsWritten refusal.now refused.new }
{
    refused.number = number_of(refusal.number);
    refused.line = refusal.line.min(u32::MAX as usize) as u32;
    refused.column = refusal.column.min(u32::MAX as usize) as u32;
    let mut count = 0u32;
    let mut at = 0;
    for name in refusal.cycle.names() {
        at = put_bytes(names, at, name.as_bytes());
        at = put_bytes(names, at, &[0]);
        count = count.saturating_add(1);
    }
    refused.cycle = count;
    refused.bytes = at;
}

// Writes why, where it isn't out of memory.
fn write_why(refused: &mut Refused, names: &mut [u8], refusal: &Refusal) -> u32
    ensures why { IsRefusal result → refusal.now.number ≢ numbers.Memory }
    ensures written { IsRefusal result → IsWritten refusal.now refused.new }
    ensures never { IsOkay result → ⊥ }
{
    match refusal.number {
        RefusalNumber::Memory => MEMORY,
        _ => {
            write_refusal(refused, names, refusal);
            REFUSED
        }
    }
}

fn compile_in(
    alloc: Global,
    text: &str,
    out: &mut Handle,
    refused: &mut Refused,
    names: &mut [u8],
) -> u32
    requires { has_content out.old.kept.held ≡ false }
    ensures accepted { IsOkay result → HeldAccepted text.now out.new.kept.held }
    ensures refused { IsRefusal result → IsRefused text.now }
    ensures told { IsRefusal result → TellsRefusal text.now refused.new }
{
    match lus_machine::compile(alloc, text) {
        Ok(program) => {
            let Ok(program) = Arc::new(alloc, program) else {
                return MEMORY;
            };
            fill(alloc, out, Content::Program(program))
        }
        Err(refusal) => write_why(refused, names, &refusal),
    }
}

/// The program of a text, in `out`; or why it is refused, with the names of a cycle's variables.
#[unsafe(no_mangle)]
pub extern "C" fn lus_raw_compile(
    alloc: Global,
    text: &[u8],
    out: &mut Handle,
    refused: &mut Refused,
    names: &mut [u8],
) -> u32
    ensures accepted { IsOkay result → HeldAccepted text.now out.new.kept.held }
    ensures refused { IsRefusal result → IsRefused text.now }
    ensures told { IsRefusal result → TellsRefusal text.now refused.new }
{
    if !out.is_free() {
        return HANDLE;
    }
    match str::from_utf8(text) {
        Ok(text) => compile_in(alloc, text, out, refused, names),
        Err(_) => TEXT,
    }
}
