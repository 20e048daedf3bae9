//! Numbers of predicates, functions and objects by their names.

ghost use Rattle.std.specs.Prelude.{◌≡◌, ◌<◌, ◌^◌, ℕ, List, length, IfOk};
ghost use Rattle.pddl_models.specs.WordTables.{ArePlacesOf, AreWordTables};
ghost use Rattle.pddl_vocabulary.specs.Values.{place_in};

use model_kit::Vocabulary;
use mre_base::{NoMemory, Text};
use pddl_names::NameTable;
use std::alloc::Global;

/// The numbers of a vocabulary's predicates, functions and objects, by their names.
pub struct WordTables {
    pub predicates: NameTable,
    pub functions: NameTable,
    pub objects: NameTable,
}

impl Drop for WordTables {
    fn drop(self) {
        let WordTables {
            predicates: _,
            functions: _,
            objects: _,
        } = self;
    }
}

impl WordTables {
    /// Of a vocabulary.
    pub fn of(alloc: Global, words: &Vocabulary) -> Result<WordTables, NoMemory>
        requires predicates { length words.now.predicates < 2 ^ 30 }
        requires functions { length words.now.functions < 2 ^ 30 }
        requires objects { length words.now.objects < 2 ^ 30 }
        ensures ok { IfOk result (λ tables. AreWordTables words.now tables) }
    {
        Ok(WordTables {
            predicates: NameTable::of(alloc, &words.predicates)?,
            functions: NameTable::of(alloc, &words.functions)?,
            objects: NameTable::of(alloc, &words.objects)?,
        })
    }
}

/// The place of a name among the names of a table; 0 where it isn't there.
pub fn place_in(table: &NameTable, name: &Text) -> u32
    ensures { (names : List (List ℕ)) → ArePlacesOf names table.now →
        result ≡ place_in names name.now }
{
    table.number(name).unwrap_or(0)
}
