//! What programs say of their nodes and types.
ghost use Rattle.std.specs.Prelude.{◌≡◌, None, MatchOption, length, map, slice_get};
ghost use Rattle.std.specs.Option.{option_map};
ghost use Rattle.lus_program.specs.View.{variable_of, field_of};
ghost use Rattle.lus_leaves.specs.Writing.{over};
ghost use Rattle.lus_c.specs.Held.{IsOkay};
ghost use Rattle.lus_c.specs.Queries.{CostIsTold, FormalIsTold, FormalsAreTold, IsHandle, NameIsTold, NodeIsTold, NodesAreTold};
ghost use Rattle.lus_c.specs.Queries.{OfHeldCode, OfHeldProgram, cost_out, constructor_at, field_at, input_at, node_name_at, output_at};
ghost use Rattle.lus_c.specs.Queries.{as_variable, clock_code, kind_code, type_of};

use crate::status::{NONE, OK, TEXT};
use lus_foreign::{Content, HANDLE, Handle};
use lus_program::{Kind, Test};
use lus_shared::lus_machine::{Cost, Field, Formal, NodeId};
use std::alloc::Global;
use std::str;

/// An input, an output or a field.
#[repr(C)]
pub struct FormalOut {
    /// The kind of its values, as of a leaf.
    kind: u32,
    /// The number of its enumeration or structure among the program's types; 0 for others.
    of: u32,
    /// 1 where it is on a clock.
    clocked: u32,
    unused: u32,
    /// How many bytes its name has.
    bytes: u64,
}

/// What a step of a node takes at most, and what its instances keep.
#[repr(C)]
pub struct CostOut {
    orders: u64,
    row: u64,
    instance_bytes: u64,
    saved_bytes: u64,
}

/// How many nodes a program has.
#[unsafe(no_mangle)]
pub extern "C" fn lus_raw_nodes(alloc: Global, handle: &mut Handle, count: &mut u32) -> u32
    ensures told { OfHeldProgram handle.old.kept.held result (λ p. NodesAreTold p result count.new) }
    ensures same { handle.new.kept.held ≡ handle.old.kept.held }
{
    let mut ask = |content: &Content| match content {
        Content::Program(program) => {
            *count = program.nodes();
            OK
        }
        _ => HANDLE,
    };
    handle.with(alloc, &mut ask)
}

/// The number of the node of this name.
#[unsafe(no_mangle)]
pub extern "C" fn lus_raw_node(
    alloc: Global,
    handle: &mut Handle,
    name: &[u8],
    node: &mut u32,
) -> u32
    ensures told { OfHeldProgram handle.old.kept.held result (λ p. NodeIsTold p name.now result node.new) }
    ensures same { handle.new.kept.held ≡ handle.old.kept.held }
{
    let mut ask = |content: &Content| {
        let Content::Program(program) = content else {
            return HANDLE;
        };
        let Ok(name) = str::from_utf8(name) else {
            return TEXT;
        };
        match program.node(name) {
            Some(found) => {
                *node = found.0;
                OK
            }
            None => NONE,
        }
    };
    handle.with(alloc, &mut ask)
}

/// The name of the node of this number.
#[unsafe(no_mangle)]
pub extern "C" fn lus_raw_node_name(
    alloc: Global,
    handle: &mut Handle,
    node: u32,
    bytes: &mut u64,
    name: &mut [u8],
) -> u32
    ensures told { OfHeldProgram handle.old.kept.held result (λ p. NameIsTold (node_name_at p node) result bytes.new name.old name.new) }
    ensures same { handle.new.kept.held ≡ handle.old.kept.held }
{
    let mut ask = |content: &Content| {
        let Content::Program(program) = content else {
            return HANDLE;
        };
        match program.source().nodes.get(node as usize) {
            Some(found) => tell_name(bytes, name, Some(found.name.as_str())),
            None => NONE,
        }
    };
    handle.with(alloc, &mut ask)
}

/// How many inputs and outputs a node has.
#[unsafe(no_mangle)]
pub extern "C" fn lus_raw_formals(
    alloc: Global,
    handle: &mut Handle,
    node: u32,
    inputs: &mut u32,
    outputs: &mut u32,
) -> u32
    ensures told { OfHeldProgram handle.old.kept.held result (λ p. FormalsAreTold (slice_get p.nodes node) result inputs.new outputs.new) }
    ensures same { handle.new.kept.held ≡ handle.old.kept.held }
{
    let mut ask = |content: &Content| {
        let Content::Program(program) = content else {
            return HANDLE;
        };
        match program.source().nodes.get(node as usize) {
            Some(found) => {
                *inputs = found.inputs;
                *outputs = found.outputs;
                OK
            }
            None => NONE,
        }
    };
    handle.with(alloc, &mut ask)
}

fn write_cost(out: &mut CostOut, cost: Cost)
    ensures { out.new ≡ cost_out cost }
{
    out.orders = cost.orders;
    out.row = cost.row;
    out.instance_bytes = cost.instance_bytes;
    out.saved_bytes = cost.saved_bytes;
}

/// What a step of a node takes at most, and what its instances keep.
#[unsafe(no_mangle)]
pub extern "C" fn lus_raw_cost(
    alloc: Global,
    handle: &mut Handle,
    node: u32,
    out: &mut CostOut,
) -> u32
    ensures told { OfHeldCode handle.old.kept.held result (λ c. CostIsTold c node result out.new) }
    ensures same { handle.new.kept.held ≡ handle.old.kept.held }
{
    let mut ask = |content: &Content| match content {
        Content::Program(program) if program.has(NodeId(node)) => {
            write_cost(out, program.cost(NodeId(node)));
            OK
        }
        Content::Program(_) => NONE,
        _ => HANDLE,
    };
    handle.with(alloc, &mut ask)
}

/// An input of a node.
#[unsafe(no_mangle)]
pub extern "C" fn lus_raw_input(
    alloc: Global,
    handle: &mut Handle,
    node: u32,
    place: u32,
    out: &mut FormalOut,
    name: &mut [u8],
) -> u32
    ensures told { OfHeldProgram handle.old.kept.held result (λ p. FormalIsTold (input_at p node place) result out.new name.old name.new) }
    ensures same { handle.new.kept.held ≡ handle.old.kept.held }
{
    let mut ask = |content: &Content| match content {
        Content::Program(program) if program.has(NodeId(node)) => {
            tell_formal(program.inputs(NodeId(node)), place, out, name)
        }
        Content::Program(_) => NONE,
        _ => HANDLE,
    };
    handle.with(alloc, &mut ask)
}

/// An output of a node.
#[unsafe(no_mangle)]
pub extern "C" fn lus_raw_output(
    alloc: Global,
    handle: &mut Handle,
    node: u32,
    place: u32,
    out: &mut FormalOut,
    name: &mut [u8],
) -> u32
    ensures told { OfHeldProgram handle.old.kept.held result (λ p. FormalIsTold (output_at p node place) result out.new name.old name.new) }
    ensures same { handle.new.kept.held ≡ handle.old.kept.held }
{
    let mut ask = |content: &Content| match content {
        Content::Program(program) if program.has(NodeId(node)) => {
            tell_formal(program.outputs(NodeId(node)), place, out, name)
        }
        Content::Program(_) => NONE,
        _ => HANDLE,
    };
    handle.with(alloc, &mut ask)
}

/// A field of a structure.
#[unsafe(no_mangle)]
pub extern "C" fn lus_raw_field(
    alloc: Global,
    handle: &mut Handle,
    structure: u32,
    place: u32,
    out: &mut FormalOut,
    name: &mut [u8],
) -> u32
    ensures told { OfHeldProgram handle.old.kept.held result
        (λ p. FormalIsTold (field_at p structure place) result out.new name.old name.new) }
    ensures same { handle.new.kept.held ≡ handle.old.kept.held }
{
    let mut ask = |content: &Content| match content {
        Content::Program(program) => tell_field(program.fields(structure), place, out, name),
        _ => HANDLE,
    };
    handle.with(alloc, &mut ask)
}

/// The name of an enumeration's constructor.
#[unsafe(no_mangle)]
pub extern "C" fn lus_raw_constructor(
    alloc: Global,
    handle: &mut Handle,
    of: u32,
    constructor: u32,
    bytes: &mut u64,
    name: &mut [u8],
) -> u32
    ensures told { OfHeldProgram handle.old.kept.held result
        (λ p. NameIsTold (constructor_at p of constructor) result bytes.new name.old name.new) }
    ensures same { handle.new.kept.held ≡ handle.old.kept.held }
{
    let mut ask = |content: &Content| match content {
        Content::Program(program) => {
            tell_name(bytes, name, program.names().name(of, constructor))
        }
        _ => HANDLE,
    };
    handle.with(alloc, &mut ask)
}

/// Lets go what a handle holds.
#[unsafe(no_mangle)]
pub extern "C" fn lus_raw_free(alloc: Global, handle: &mut Handle) -> u32
    ensures freed { MatchOption handle.old.kept.held (IsHandle result) (λ content. IsOkay result) }
    ensures empty { handle.new.kept.held ≡ None }
{
    match handle.take(alloc) {
        Some(_) => OK,
        None => HANDLE,
    }
}

/// Writes a name as far as the array has room; answers how many bytes the name has.
fn put_name(room: &mut [u8], name: &str) -> u64
    ensures written { room.new ≡ over room.old name.now }
    ensures bytes { result ≡ length name.now }
{
    let bytes = name.as_bytes();
    let end = bytes.len().min(room.len());
    room[..end].copy_from_slice(&bytes[..end]);
    bytes.len() as u64
}

fn tell_name(bytes: &mut u64, room: &mut [u8], name: Option<&str>) -> u32
    ensures { NameIsTold (option_map (λ name. name.now) name.entry) result bytes.new room.old room.new }
{
    match name {
        Some(name) => {
            *bytes = put_name(room, name);
            OK
        }
        None => NONE,
    }
}

/// The number of a kind, and that of its type.
fn numbers_of(kind: Kind) -> (u32, u32)
    ensures { result ≡ (kind_code kind, type_of kind) }
{
    match kind {
        Kind::Bool => (1, 0),
        Kind::Int => (2, 0),
        Kind::Enum(of) => (3, of),
        Kind::Struct(of) => (4, of),
    }
}

fn clock_number(test: &Option<Test>) -> u32
    ensures { result ≡ clock_code test.now }
{
    match test {
        Some(_) => 1,
        None => 0,
    }
}

/// Tells what a variable is, and its name.
fn write_formal(out: &mut FormalOut, room: &mut [u8], name: &str, kind: Kind, clocked: u32)
    ensures out { out.new ≡ record { kind = kind_code kind; of = type_of kind; clocked = clocked; unused = 0; bytes = length name.now } }
    ensures name { room.new ≡ over room.old name.now }
{
    let (code, of) = numbers_of(kind);
    out.kind = code;
    out.of = of;
    out.clocked = clocked;
    out.unused = 0;
    out.bytes = put_name(room, name);
}

fn tell_formal(formals: &[Formal], place: u32, out: &mut FormalOut, name: &mut [u8]) -> u32
    ensures { FormalIsTold (slice_get (map variable_of formals.now) place) result out.new name.old name.new }
{
    let Some(formal) = formals.get(place as usize) else {
        return NONE;
    };
    let clocked = clock_number(&formal.test);
    write_formal(out, name, formal.name.as_str(), formal.kind, clocked);
    OK
}

fn tell_field(fields: &[Field], place: u32, out: &mut FormalOut, name: &mut [u8]) -> u32
    ensures { FormalIsTold (option_map as_variable (slice_get (map field_of fields.now) place)) result out.new name.old name.new }
{
    let Some(field) = fields.get(place as usize) else {
        return NONE;
    };
    write_formal(out, name, field.name.as_str(), field.kind, 0);
    OK
}
