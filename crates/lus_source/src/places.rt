//! Names by their places, and what they stand for.

ghost use Rattle.std.specs.Prelude.{◌≡◌, slice_get};
ghost use Rattle.std.specs.List.{zip};
ghost use Rattle.std.specs.Option.{option_copied};
ghost use Rattle.lus_source.specs.Scopes.{entry};

use indexmap::IndexSet;
use std::marker::Model;

/// Names by their places. Contracts see them as the names in their order.
pub struct Places {
    names: IndexSet<String>,
}

impl Model for Places {
    ghost use Rattle.std.specs.Prelude.{List, ◌≤◌, length, map, string_bytes};
    ghost use Rattle.lus_syntax.specs.Lexemes.{Text};

    ghost Value = { List Text };

    ghost view = { λ p. map string_bytes p.names.keys };

    ghost invariant = { λ p. length p.names.keys ≤ 4294967295 };
}

impl Places {
    ghost use Rattle.std.specs.Prelude.{◌≡◌, ◌≤◌, length, map, string_bytes};
    ghost use Rattle.lus_source.specs.Loopless.{place_in};

    /// These names, which a place can count.
    pub fn new(names: IndexSet<String>) -> Places
        requires few { length names.keys ≤ 4294967295 }
        ensures { result ≡ map string_bytes names.keys }
    {
        Places { names }
    }

    /// The place of a name, if it is among them.
    pub fn place(&self, name: &str) -> Option<u32>
        ensures { result ≡ place_in self.now name.now }
    {
        match self.names.get_index_of(name) {
            Some(place) => Some(place as u32),
            None => None,
        }
    }

    /// How many names there are.
    pub fn len(&self) -> usize
        ensures { result ≡ length self.now }
    {
        self.names.len()
    }
}

// By hand, so that crates above call it: what a derive drops is proved again in each of them.
impl Drop for Places {
    fn drop(self) {
        let Places { names: _ } = self;
    }
}

/// What is at a place, if there is so much.
pub fn at<X>(values: &[X], place: usize) -> Option<&X>
    ensures { option_copied result ≡ slice_get values.now place }
{
    if place < values.len() {
        Some(&values[place])
    } else {
        None
    }
}

/// What a name stands for, where each of these names stands for what is at its place.
pub fn find<'a, X>(names: &Places, values: &'a [X], name: &str) -> Option<&'a X>
    ensures { option_copied result ≡ entry (zip names.now values.now) name.now }
{
    match names.place(name) {
        Some(place) => at(values, place as usize),
        None => None,
    }
}

/// The names of a source's types, values and nodes, each in the order of the declarations.
pub struct Spaces {
    pub types: Places,
    pub constants: Places,
    pub constructors: Places,
    pub nodes: Places,
}

// By hand, as that of `Places`.
impl Drop for Spaces {
    fn drop(self) {
        let Spaces {
            types: _,
            constants: _,
            constructors: _,
            nodes: _,
        } = self;
    }
}
