//! The facts and the values of a problem.

ghost use Rattle.std.specs.Prelude.{◌≡◌, ◌+◌, ◌<◌, ◌^◌, ℕ, List, length, drop, map, slice_get};
ghost use Rattle.std.specs.Prelude.{IfOk, IfSome};
ghost use Rattle.model_kit.specs.declared.vocabulary.Vocabulary.{Vocabulary};
ghost use Rattle.model_kit.specs.Features.{same_key};
ghost use Rattle.pddl_names.specs.Listings.{terms_behind, number_behind, values_in};
ghost use Rattle.pddl_models.specs.Saying.{is_value};
ghost use Rattle.pddl_models.specs.WordTables.{ArePlacesOf, AreWordTables};
ghost use Rattle.pddl_vocabulary.specs.Values.{place_in, firsts, words_named, names_of};
ghost use Rattle.pddl_models.specs.Says.{ground_atom_said, facts_said, value_said};

use crate::atoms_said::is_saying;
use crate::unrepeated::{Seen, push_first};
use crate::word_tables::{WordTables, place_in};
use model_kit::GroundAtom;
use mre_base::{List, NoMemory};
use pddl_form::number_of;
use pddl_names::{NameTable, Role, Says, Word, is_term};
use std::alloc::Global;

// The numbers of the objects from a word on, up to the first word that isn't an object.
fn objects_said(
    alloc: Global,
    objects: &NameTable,
    said: &List<Word>,
    start: usize,
) -> Result<List<u32>, NoMemory>
    ensures ok { IfOk result (λ made. (things : List (List ℕ)) → ArePlacesOf things objects.now →
        made ≡ map (place_in things) (terms_behind (drop start said.now))) }
{
    let mut made = List::empty(alloc);
    for place in start..said.len() {
        let word = said.item(place);
        if !is_term(word) {
            return Ok(made);
        }
        made.push(place_in(objects, &word.text))?;
    }
    Ok(made)
}

// The fact whose head is at a place.
fn fact_said(
    alloc: Global,
    tables: &WordTables,
    said: &List<Word>,
    place: usize,
) -> Result<GroundAtom, NoMemory>
    requires place { place < length said.now }
    requires few { length said.now < 2 ^ 30 }
    ensures ok { IfOk result (λ made. (words : Vocabulary) → AreWordTables words tables.now →
        IfSome (slice_get said.now place) (λ w. made ≡
        ground_atom_said words (w.text, terms_behind (drop (place + 1) said.now)))) }
{
    Ok(GroundAtom {
        predicate: place_in(&tables.predicates, &said.item(place).text),
        objects: objects_said(alloc, &tables.objects, said, place + 1)?,
    })
}

/// The facts of a problem that say this, without repeats.
pub fn facts_said(
    alloc: Global,
    tables: &WordTables,
    said: &List<Word>,
    due: Says,
) -> Result<List<GroundAtom>, NoMemory>
    requires few { length said.now < 2 ^ 30 }
    ensures ok { IfOk result (λ made. (words : Vocabulary) → AreWordTables words tables.now →
        made ≡ facts_said due words said.now) }
{
    let mut made = List::empty(alloc);
    let mut seen = Seen::nothing(alloc);
    for place in 0..said.len() {
        if !is_saying(said.item(place).role, due) {
            continue;
        }
        let fact = fact_said(alloc, tables, said, place)?;
        push_first(alloc, &mut made, &mut seen, fact)?;
    }
    Ok(made)
}

// The number after the terms from a word on; 0 where there is no number.
fn number_said(said: &List<Word>, start: usize) -> u32
    ensures { result ≡ number_behind (drop start said.now) }
{
    for place in start..said.len() {
        let word = said.item(place);
        if !is_term(word) {
            return number_of(word.text.bytes()).unwrap_or(0);
        }
    }
    0
}

// Whether a word of this role is the function of a value.
fn is_value(role: Role) -> bool
    ensures { result ≡ is_value role }
{
    matches!(role, Role::Value)
}

// The value whose function is at a place.
fn value_said(
    alloc: Global,
    tables: &WordTables,
    said: &List<Word>,
    place: usize,
) -> Result<(u32, List<u32>, u32), NoMemory>
    requires place { place < length said.now }
    requires few { length said.now < 2 ^ 30 }
    ensures ok { IfOk result (λ made. (words : Vocabulary) → AreWordTables words tables.now →
        IfSome (slice_get said.now place) (λ w. made ≡
        value_said words (
          (w.text, terms_behind (drop (place + 1) said.now)),
          number_behind (drop (place + 1) said.now),
        ))) }
{
    Ok((
        place_in(&tables.functions, &said.item(place).text),
        objects_said(alloc, &tables.objects, said, place + 1)?,
        number_said(said, place + 1),
    ))
}

/// The values of a problem: of those of one function at the same objects the first.
pub fn values_said(
    alloc: Global,
    tables: &WordTables,
    said: &List<Word>,
) -> Result<List<(u32, List<u32>, u32)>, NoMemory>
    requires few { length said.now < 2 ^ 30 }
    ensures ok { IfOk result (λ made. (words : Vocabulary) → AreWordTables words tables.now →
        made ≡ firsts same_key (map (value_said words) (values_in said.now))) }
{
    let mut made = List::empty(alloc);
    let mut seen = Seen::nothing(alloc);
    for place in 0..said.len() {
        if !is_value(said.item(place).role) {
            continue;
        }
        let value = value_said(alloc, tables, said, place)?;
        push_first(alloc, &mut made, &mut seen, value)?;
    }
    Ok(made)
}
