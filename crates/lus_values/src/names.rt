//! Names of constructors.

ghost use Rattle.std.specs.Prelude.{◌≡◌, ◌^◌, ◌<◌, ◌≤◌, ◌++◌, ◌∷◌, [], IfOk, OnOk, length, map, string_bytes};
ghost use Rattle.std.specs.Option.{option_map, option_or};
ghost use Rattle.indexmap.specs.IndexMap.{get_by_text};
ghost use Rattle.lus_values.specs.Names.{Text, name_of, numbers_by, numbers_of};

use crate::memory::Memory;
use indexmap::IndexMap;
use std::alloc::Global;
use std::marker::Model;

/// The names of constructors, which are looked up both ways without memory.
#[derive(Drop)]
pub struct Names {
    types: Vec<Vec<String>>,
    numbers: IndexMap<String, (u32, u32)>,
}

impl Model for Names {
    ghost use Rattle.std.specs.Prelude.{◌≡◌, List, ℕ};
    ghost use Rattle.indexmap.specs.IndexMap.{get_by_text};
    ghost use Rattle.lus_values.specs.Names.{Text, names_in, numbers_of};

    ghost Value = { List (List (List ℕ)) };

    ghost view = { λ n. names_in n.types.items };

    ghost invariant = { λ n. (text : Text) → get_by_text n.numbers text ≡ numbers_of (names_in n.types.items) text };
}

impl Names {
    /// No types yet.
    pub fn new(alloc: Global) -> Names
        ensures { result ≡ [] }
    {
        Names {
            types: Vec::new(alloc),
            numbers: IndexMap::new(alloc),
        }
    }

    /// Adds the next type with copies of its constructors' names, in declared order: none, if it is no enumeration.
    pub fn with_type(self, alloc: Global, constructors: &[String]) -> Result<Names, Memory>
        requires types { length self < 2 ^ 32 }
        requires constructors { length constructors.now ≤ 2 ^ 32 }
        ensures { IfOk result (λ names. names ≡ self ++ map string_bytes constructors.now ∷ []) }
    {
        let Names {
            mut types,
            mut numbers,
        } = self;
        let enumeration = types.len() as u32;
        let mut names = Vec::new(alloc);
        for (constructor, name) in constructors.iter().enumerate() {
            declare(&mut numbers, name, (enumeration, constructor as u32))?;
            names.push(name.clone()?)?;
        }
        types.push(names)?;
        Ok(Names { types, numbers })
    }

    /// The name of a type's constructor.
    pub fn name(&self, enumeration: u32, constructor: u32) -> Option<&str>
        ensures { option_map (λ name. name.now) result ≡ name_of self.now enumeration constructor }
    {
        let names = self.types.get(enumeration as usize)?;
        let name = names.get(constructor as usize)?;
        Some(name.as_str())
    }

    /// The numbers of the type and of the constructor that has the name, the first if several have.
    pub fn find(&self, name: &str) -> Option<(u32, u32)>
        ensures { result ≡ numbers_of self.now name.now }
    {
        self.numbers.get(name).copied()
    }
}

/// Notes a name's numbers, unless it has some.
fn declare(
    numbers: &mut IndexMap<String, (u32, u32)>,
    name: &String,
    place: (u32, u32),
) -> Result<(), Memory>
    ensures { let said = numbers_by (string_bytes name.now) place in
        OnOk result ((text : Text) → get_by_text numbers.new text ≡ option_or (get_by_text numbers.old text) (said text)) }
{
    if !numbers.contains_key(name) {
        numbers.insert(name.clone()?, place)?;
    }
    Ok(())
}
