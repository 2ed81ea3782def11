//! The tests of a variable's clock, one after the other.

ghost use Rattle.std.specs.Prelude.{◌≡◌, length, map};
ghost use Rattle.std.specs.Iterator.{YieldsFirst, item_count};
ghost use Rattle.lus_program.specs.View.{variable_of};
ghost use Rattle.lus_streams.specs.Clocks.{chain};

use crate::clock::test_at;
use lus_program::{Test, Variable};
use std::marker::Model;

/// The tests of a clock that are left, the newest first. Contracts see them as a list.
#[derive(Drop)]
pub struct Tests<'v> {
    variables: &'v [Variable],
    variable: usize,
    // so that it ends where declared clocks are circular
    most: usize,
}

impl<'v> Model for Tests<'v> {
    ghost use Rattle.std.specs.Prelude.{map};
    ghost use Rattle.lus_program.specs.View.{variable_of};
    ghost use Rattle.lus_streams.specs.Clocks.{Clock, chain};

    ghost Value = { Clock };

    ghost view = { λ s. chain s.most (map variable_of s.variables.now) s.variable };
}

impl<'v> Iterator for Tests<'v> {
    type Item = Test;

    ghost next_gives = { YieldsFirst (λ s. s) };

    ghost remaining = { item_count (λ s. s) };

    fn next(&mut self) -> Option<Test> {
        if self.most == 0 {
            return None;
        }
        let test = test_at(self.variables, self.variable)?;
        self.variable = test.variable as usize;
        self.most -= 1;
        Some(test)
    }
}

/// The tests of the clock of a variable, the newest first; past the last variable there are none.
pub fn tests_of(variables: &[Variable], variable: usize) -> Tests<'_>
    ensures { result ≡ chain (length (map variable_of variables.now)) (map variable_of variables.now) variable }
{
    Tests {
        variables,
        variable,
        most: variables.len(),
    }
}
