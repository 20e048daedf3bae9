//! Numbers of named things, by their names.

ghost use Rattle.std.specs.Prelude.{◌≡◌, ◌<◌, ◌^◌, ℕ, length, IfOk, OnOk, OnErr};
ghost use Rattle.pddl_names.specs.Kinds.{ArePlaces};
ghost use Rattle.pddl_names.specs.Numbers.{number_in, IsTableOf, PutsNumber};
ghost use Rattle.pddl_names.specs.Params.{AreParamPlaces};

use crate::kind::Kind;
use crate::role::{Word, is_action, is_param};
use model_kit::Signature;
use mre_base::{List, NoMemory, Text};
use std::alloc::Global;
use std::collections::BTreeMap;

/// What is declared by a name.
pub trait Named {
    ghost use Rattle.std.specs.Prelude.{List, ℕ};

    ghost name_of: { Self → List ℕ };

    fn name(&self) -> &Text
        ensures { result.now ≡ name_of self.now };
}

/// A type or an object.
impl Named for (Text, u32) {
    ghost use Rattle.pddl_names.specs.Kinds.{ArePlaces};
    ghost use Rattle.pddl_names.specs.Numbers.{entry_name};

    ghost name_of = { entry_name };

    fn name(&self) -> &Text {
        &self.0
    }
}

/// A predicate, a function or an action.
impl Named for Signature {
    ghost use Rattle.pddl_names.specs.Kinds.{ArePlaces};
    ghost use Rattle.pddl_names.specs.Numbers.{word_name};

    ghost name_of = { word_name };

    fn name(&self) -> &Text {
        &self.name
    }
}

/// A name by itself.
impl Named for Text {
    ghost use Rattle.pddl_names.specs.Kinds.{ArePlaces};
    ghost use Rattle.pddl_names.specs.Numbers.{text_name};

    ghost name_of = { text_name };

    fn name(&self) -> &Text {
        self
    }
}

/// Names, each with the number of what it is the name of.
#[derive(Drop)]
pub struct NameTable {
    numbers: BTreeMap<Text, u32>,
}

impl NameTable {
    /// The numbers of entries, by their names.
    pub fn of<T: Named>(alloc: Global, entries: &List<T>) -> Result<NameTable, NoMemory>
        requires few { length entries.now < 2 ^ 30 }
        ensures ok { IfOk result (λ table. IsTableOf T.name_of entries.now table) }
    {
        let mut table = NameTable {
            numbers: BTreeMap::new(alloc),
        };
        for place in (0..entries.len()).rev() {
            table.put(alloc, entries.item(place).name(), place as u32)?;
        }
        Ok(table)
    }

    /// Where the names of a kind are declared first among the words.
    pub fn of_kind(alloc: Global, words: &List<Word>, kind: Kind) -> Result<NameTable, NoMemory>
        requires few { length words.now < 2 ^ 30 }
        ensures ok { IfOk result (λ table. ArePlaces kind words.now table) }
    {
        let mut table = NameTable {
            numbers: BTreeMap::new(alloc),
        };
        for place in (0..words.len()).rev() {
            let word = words.item(place);
            if kind.has(word.role) {
                table.put(alloc, &word.text, place as u32)?;
            }
        }
        Ok(table)
    }

    /// Where the parameters of an action are first declared, by the words from a place after its
    /// name on.
    pub fn of_params(alloc: Global, words: &List<Word>, start: usize) -> Result<NameTable, NoMemory>
        requires few { length words.now < 2 ^ 30 }
        ensures ok { IfOk result (λ table. AreParamPlaces words.now start table) }
    {
        let mut table = NameTable {
            numbers: BTreeMap::new(alloc),
        };
        for place in start..words.len() {
            let word = words.item(place);
            if is_action(word.role) {
                return Ok(table);
            }
            if !is_param(word.role) {
                continue;
            }
            if table.number(&word.text).is_some() {
                continue;
            }
            table.put(alloc, &word.text, place as u32)?;
        }
        Ok(table)
    }

    /// Gives a name a number, in place of any number that it had.
    fn put(&mut self, alloc: Global, name: &Text, number: u32) -> Result<(), NoMemory>
        ensures ok { OnOk result (PutsNumber self.old self.new name.now number) }
    {
        self.numbers.insert(name.copy(alloc)?, number)?;
        Ok(())
    }

    /// The number of a name.
    pub fn number(&self, name: &Text) -> Option<u32>
        ensures { result ≡ number_in self.now name.now }
    {
        self.numbers.get(name).copied()
    }
}
