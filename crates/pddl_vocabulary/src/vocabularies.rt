//! The vocabulary of a domain, and of a problem after its domain.

ghost use Rattle.std.specs.Prelude.{◌+◌, ◌<◌, ◌≤◌, ◌^◌, length, IfOk};
ghost use Rattle.pddl_vocabulary.specs.Formed.{AreFormed};
ghost use Rattle.pddl_names.specs.Listings.{nothing};
ghost use Rattle.pddl_names.specs.Naming.{IsNamed};
ghost use Rattle.pddl_vocabulary.specs.Values.{SaysWords, SaysMore};

use crate::vocabulary_firsts::{firsts_of, with_further};
use crate::vocabulary_lists::{entries_of, objects_listed};
use crate::vocabulary_types::{TypeNumbers, type_words, types_of};
use model_kit::Vocabulary;
use mre_base::{Copied, List, NoMemory};
use pddl_names::{Kind, NameTable, Word, type_places};
use std::alloc::Global;

/// The vocabulary of the words of a domain: types, objects, predicates, functions and actions in the
/// order in which the text first names them, `object` before the other types, and `total-cost` not
/// among the functions.
pub fn vocabulary_of(alloc: Global, said: &List<Word>) -> Result<Vocabulary, NoMemory>
    requires few { length said.now < 2 ^ 29 }
    requires formed { AreFormed said.now }
    requires named { IsNamed nothing said.now }
    ensures ok { IfOk result (SaysWords said.now) }

    // There are no more types, objects and actions than words, save for `object`.
    ensures few_types { IfOk result (λ words. length words.types ≤ length said.now + 1) }
    ensures few_objects { IfOk result (λ words. length words.objects ≤ length said.now) }
    ensures few_actions { IfOk result (λ words. length words.actions ≤ length said.now) }
{
    let names = firsts_of(alloc, &type_words(alloc, said)?)?;
    let types = TypeNumbers {
        numbers: NameTable::of(alloc, &names)?,
        places: type_places(alloc, said)?,
    };
    Ok(Vocabulary {
        types: types_of(alloc, said, &types, &names)?,
        objects: firsts_of(alloc, &objects_listed(alloc, said, &types)?)?,
        predicates: entries_of(alloc, said, Kind::Predicates, &types)?,
        functions: entries_of(alloc, said, Kind::Functions, &types)?,
        actions: entries_of(alloc, said, Kind::Actions, &types)?,
    })
}

/// The vocabulary of the words of a problem after that of its domain: the domain's, with the
/// problem's objects after the domain's constants.
pub fn vocabulary_with(
    alloc: Global,
    domain: &Vocabulary,
    said: &List<Word>,
) -> Result<Vocabulary, NoMemory>
    requires few { length said.now < 2 ^ 30 }
    requires types { length domain.now.types < 2 ^ 30 }
    requires objects { length domain.now.objects < 2 ^ 30 }
    requires formed { AreFormed said.now }
    ensures ok { IfOk result (SaysMore domain.now said.now) }
    ensures few_objects { IfOk result (λ words. length words.objects
        ≤ length domain.now.objects + length said.now) }
{
    let types = TypeNumbers {
        numbers: NameTable::of(alloc, &domain.types)?,
        places: type_places(alloc, said)?,
    };
    let listed = firsts_of(alloc, &objects_listed(alloc, said, &types)?)?;
    Ok(Vocabulary {
        types: domain.types.copied(alloc)?,
        objects: with_further(alloc, &domain.objects, &listed)?,
        predicates: domain.predicates.copied(alloc)?,
        functions: domain.functions.copied(alloc)?,
        actions: domain.actions.copied(alloc)?,
    })
}
