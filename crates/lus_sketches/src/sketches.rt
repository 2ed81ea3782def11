//! What is drawn of a journal, as its entries are replayed.

ghost use Rattle.std.specs.Prelude.{◌≡◌, ◌<◌, ◌++◌, ◌∷◌, ℕ, List, [], IfOk, length, map, option_map};
ghost use Rattle.lus_values.specs.Lists.{Each};
ghost use Rattle.lus_program.specs.Programs.{Program as PlainProgram};
ghost use Rattle.lus_program.specs.Resolved.{Resolved};
ghost use Rattle.lus_program.specs.View.{program_seen};
ghost use Rattle.lus_requests.specs.declared.request.Entry.{Entry};
ghost use Rattle.lus_streams.specs.OnClock.{ProgramOnClocks};
ghost use Rattle.lus_streams.specs.Order.{IsCausal};
ghost use Rattle.lus_order.specs.Orders.{IsNarrow, NeedsVariables};
ghost use Rattle.lus_play.specs.Plays.{entry_of};
ghost use Rattle.lus_diagrams.specs.Columns.{Column as PlainColumn};
ghost use Rattle.lus_diagrams.specs.ColumnView.{column_seen};
ghost use Rattle.lus_sketches.specs.Selections.{Selection as PlainSelection, selection_seen};
ghost use Rattle.lus_sketches.specs.Sketches.{BeginsView, GivesCells, HasSketched, IsSameSketch};

use crate::selection::Selection;
use crate::signals::{Choice, choose};
use lus_diagrams::{Column, Part, Table, given_rows};
use lus_program::Program;
use lus_requests::{Reply, Request};
use lus_traces::Signal;
use lus_values::{Memory, Names, Row};
use lus_windows::{Pick, Window};
use std::alloc::Global;

/// The world of an instance, of whose instants entries are picked.
#[derive(Drop)]
pub(crate) struct View {
    pub(crate) picks: Vec<Pick>,
    pub(crate) window: Window,
}

/// Why a journal isn't drawn.
#[derive(Clone, Copy)]
pub enum Failure {
    /// The name at this place among those that are selected, from 1, leads nowhere from its node.
    Unknown(u64),
    /// There are no streams for what the instance has lived through up to the line of this number.
    Lost(u64),
}

/// What is drawn of a part of a journal, from its first line up to the last so far.
#[derive(Drop)]
pub struct Sketch {
    pub first: u64,
    pub signals: Vec<Signal>,
    pub(crate) view: Option<View>,
    pub table: Table,
    pub failure: Option<Failure>,
}

/// The world of an instance before its first entry, where entries are picked.
fn view_of(
    alloc: Global,
    program: &Program,
    node: u32,
    picks: Option<Vec<Pick>>,
) -> Result<Option<View>, Memory>
    requires resolved { Resolved (program_seen program.now) }
    requires node { node < length (program_seen program.now).nodes }
    requires needs { Each NeedsVariables (program_seen program.now).nodes }
    requires narrow { Each IsNarrow (program_seen program.now).nodes }
    ensures { IfOk result (λ o. BeginsView (program_seen program.now) node (option_map (λ ks. ks.items) picks) o) }
{
    let Some(picks) = picks else {
        return Ok(None);
    };
    let window = Window::new(alloc, program, node)?;
    Ok(Some(View { picks, window }))
}

/// The cells of each instant that an entry accepted: of a world those that are picked, else the entry's own. There are none of a world
/// that is lost.
fn cells(
    alloc: Global,
    program: &Program,
    view: &mut Option<View>,
    request: &Request,
    reply: &Reply,
) -> Result<Option<Vec<Row>>, Memory>
    requires causal { IsCausal (program_seen program.now) }
    requires clocks { ProgramOnClocks (program_seen program.now) }
    ensures { IfOk result (λ o. GivesCells (program_seen program.now) request.now reply.now view.old view.new (option_map (λ rows. rows.items) o)) }
{
    let Some(view) = view else {
        let rows = given_rows(alloc, request, reply)?;
        return Ok(Some(rows));
    };
    let mut rows = Vec::new(alloc);
    view.window
        .follow(alloc, program, request, reply, &view.picks, &mut rows)?;
    if view.window.is_lost() {
        Ok(None)
    } else {
        Ok(Some(rows))
    }
}

impl Sketch {
    /// Nothing is drawn yet of an instance of a node, whose journal's first line has this number.
    pub fn new(
        alloc: Global,
        program: &Program,
        names: &Names,
        node: u32,
        selection: Selection<'_>,
        part: Part,
        first: u64,
    ) -> Result<Sketch, Memory>
        requires resolved { Resolved (program_seen program.now) }
        requires node { node < length (program_seen program.now).nodes }
        requires needs { Each NeedsVariables (program_seen program.now).nodes }
        requires narrow { Each IsNarrow (program_seen program.now).nodes }
        ensures sketched { IfOk result (λ s. HasSketched (selection_seen selection.entry) (program_seen program.now) node [] [] s) }
        ensures part { IfOk result (λ s. s.table.part ≡ part) }
    {
        let table = Table::new(part, first);
        match choose(alloc, program, names, node, selection)? {
            Ok(Choice { signals, picks }) => Ok(Sketch {
                first,
                signals,
                view: view_of(alloc, program, node, picks)?,
                table,
                failure: None,
            }),
            Err(place) => Ok(Sketch {
                first,
                signals: Vec::new(alloc),
                view: None,
                table,
                failure: Some(Failure::Unknown(place)),
            }),
        }
    }

    /// Goes on behind an entry, unless it is known why the journal isn't drawn, and gives its columns.
    pub fn see(
        &mut self,
        alloc: Global,
        program: &Program,
        request: &Request,
        reply: &Reply,
    ) -> Result<Vec<Column>, Memory>
        requires causal { IsCausal (program_seen program.now) }
        requires clocks { ProgramOnClocks (program_seen program.now) }
        ensures sketched { let p = program_seen program.now in
            IfOk result (λ new. (s : PlainSelection) (f : ℕ) (h : List Entry) (columns : List PlainColumn) → HasSketched s p f h columns self.old
            → HasSketched s p f (h ++ entry_of request.now reply.now ∷ []) (columns ++ map column_seen new.items) self.new) }
        ensures same { IsSameSketch self.old self.new }
    {
        if self.failure.is_some() {
            return Ok(Vec::new(alloc));
        }
        match cells(alloc, program, &mut self.view, request, reply)? {
            Some(rows) => self.table.note(alloc, request, reply, rows),
            None => {
                self.failure = Some(Failure::Lost(self.table.line.saturating_add(1)));
                Ok(Vec::new(alloc))
            }
        }
    }

    /// Goes on behind a line that is no entry.
    pub fn pass(&mut self)
        ensures sketched { (s : PlainSelection) (p : PlainProgram) (f : ℕ) (h : List Entry) (columns : List PlainColumn)
            → HasSketched s p f h columns self.old → HasSketched s p f h columns self.new }
        ensures same { IsSameSketch self.old self.new }
    {
        self.table.pass();
    }
}
