//! The rule of the table, and what its steps tell.
ghost use Rattle.lus_shared.specs.Rule.{Sound, opening_sight};
ghost use Rattle.lus_shared.specs.Plays.{looked, took, gave, joined, nobody, cut_first, cut_others};
ghost use Rattle.lus_shared.specs.Key.{origin_of};

use atomic_table::{Join, Play, Split, Table, TableRule};
use lus_machine::Machine;
use std::alloc::Global;
use std::marker::Model;
use std::snapshot::Snapshot;

/// What a seat knows. No value of it is made.
pub struct View;

impl Model for View {
    ghost use Rattle.std.specs.Prelude.{false, []};
    ghost use Rattle.lus_shared.specs.Knowledge.{Sight};
    ghost use Rattle.std.specs.Coded.{codes};
    ghost use Rattle.lus_values.specs.Coded.{coded_row};
    ghost use Rattle.lus_machine.specs.HistorySpecs.CodedPrograms.{coded_expression};

    ghost Value = { Sight };

    ghost coded = { Prim.hlevel (codes, coded_row, coded_expression) };

    ghost view = { λ _. record { taker = false; seats = [] } };
}

/// The machine that the node was opened with, as clauses see it, and the number of seats.
#[derive(Drop)]
pub struct Key {
    pub machine: Snapshot<Machine>,
    pub callers: u32,
}

/// The rule.
pub struct Law;

impl TableRule<Machine, View, Key> for Law {
    ghost holds = { λ key. Sound (origin_of key) };

    ghost first = { λ key. opening_sight (origin_of key) };
}

pub type Board = Table<Machine, View, Key, Law, Global>;

pub type Place = atomic_table::Seat<Machine, View>;

pub struct Look;

impl Play<Machine, View> for Look {
    ghost then = { looked };
}

pub struct Take;

impl Play<Machine, View> for Take {
    ghost then = { took };
}

pub struct Give;

impl Play<Machine, View> for Give {
    ghost then = { gave };
}

pub struct Both;

impl Join<View> for Both {
    ghost both = { joined };

    ghost spent = { nobody };
}

pub struct Cut;

impl Split<View> for Cut {
    ghost left = { cut_others };

    ghost right = { cut_first };
}
