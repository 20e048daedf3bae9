//! The atoms and the cost that the words of an action give.

ghost use Rattle.std.specs.Prelude.{◌≡◌, ◌+◌, ◌<◌, ◌^◌, ℕ, List, length, drop, map, slice_get};
ghost use Rattle.std.specs.Prelude.{IfOk, IfSome};
ghost use Rattle.std.specs.Option.{option_map};
ghost use Rattle.model_kit.specs.declared.vocabulary.Vocabulary.{Vocabulary};
ghost use Rattle.model_kit.specs.Same.{same_schema_atom};
ghost use Rattle.pddl_form.specs.Numbers.{number};
ghost use Rattle.pddl_names.specs.Listings.{terms_behind};
ghost use Rattle.pddl_names.specs.Naming.{is_variable};
ghost use Rattle.pddl_models.specs.WordTables.{ArePlacesOf, AreWordTables};
ghost use Rattle.pddl_vocabulary.specs.Values.{firsts, words_named, names_of};
ghost use Rattle.pddl_models.specs.Says.{term_said, schema_atom_said, increase_in, atoms_in};
ghost use Rattle.pddl_models.specs.Says.{own_words, same_says};
ghost use Rattle.pddl_models.specs.Saying.{is_saying};

use crate::unrepeated::{Seen, push_first};
use crate::word_tables::{WordTables, place_in};
use model_kit::{CostExpr, SchemaAtom, Term};
use mre_base::{List, NoMemory, Text};
use pddl_form::number_of;
use pddl_names::{NameTable, Role, Says, Word, is_action, is_term};
use std::alloc::Global;

// Whether both say the same.
fn same_says(due: Says, says: Says) -> bool
    ensures { result ≡ same_says due says }
{
    match (due, says) {
        (Says::Needed, Says::Needed) => true,
        (Says::Added, Says::Added) => true,
        (Says::Deleted, Says::Deleted) => true,
        (Says::Initial, Says::Initial) => true,
        (Says::Goal, Says::Goal) => true,
        _ => false,
    }
}

/// Whether a word of this role is the head of an atom that says this.
pub fn is_saying(role: Role, due: Says) -> bool
    ensures { result ≡ is_saying due role }
{
    match role {
        Role::Head { says } => same_says(due, says),
        _ => false,
    }
}

// Whether a text is a variable.
fn is_variable(text: &Text) -> bool
    ensures { result ≡ is_variable text.now }
{
    let bytes = text.bytes();
    bytes.len() > 0 && bytes[0] == b'?'
}

// The term that a text is: a parameter by its place, or an object by its number.
fn term_said(objects: &NameTable, params: &NameTable, text: &Text) -> Term
    ensures { (things own : List (List ℕ)) → ArePlacesOf things objects.now →
        ArePlacesOf own params.now → result ≡ term_said things own text.now }
{
    if is_variable(text) {
        Term::Param(place_in(params, text))
    } else {
        Term::Object(place_in(objects, text))
    }
}

/// The terms from a word on, up to the first word that isn't a term.
pub fn terms_said(
    alloc: Global,
    objects: &NameTable,
    params: &NameTable,
    said: &List<Word>,
    start: usize,
) -> Result<List<Term>, NoMemory>
    ensures ok { IfOk result (λ made. (things own : List (List ℕ)) →
        ArePlacesOf things objects.now → ArePlacesOf own params.now →
        made ≡ map (term_said things own) (terms_behind (drop start said.now))) }
{
    let mut made = List::empty(alloc);
    for place in start..said.len() {
        let word = said.item(place);
        if !is_term(word) {
            return Ok(made);
        }
        made.push(term_said(objects, params, &word.text))?;
    }
    Ok(made)
}

// The atom whose head is at a place.
fn atom_said(
    alloc: Global,
    tables: &WordTables,
    params: &NameTable,
    said: &List<Word>,
    place: usize,
) -> Result<SchemaAtom, NoMemory>
    requires place { place < length said.now }
    requires few { length said.now < 2 ^ 30 }
    ensures ok { IfOk result (λ made. (words : Vocabulary) (own : List (List ℕ)) →
        AreWordTables words tables.now → ArePlacesOf own params.now →
        IfSome (slice_get said.now place) (λ w. made ≡
        schema_atom_said (words_named words.predicates) (names_of words.objects) own
        (w.text, terms_behind (drop (place + 1) said.now)))) }
{
    Ok(SchemaAtom {
        predicate: place_in(&tables.predicates, &said.item(place).text),
        args: terms_said(alloc, &tables.objects, params, said, place + 1)?,
    })
}

/// The atoms of an action that say this, without repeats, by the words from a place after its name
/// on.
pub fn atoms_said(
    alloc: Global,
    tables: &WordTables,
    params: &NameTable,
    said: &List<Word>,
    start: usize,
    due: Says,
) -> Result<List<SchemaAtom>, NoMemory>
    requires few { length said.now < 2 ^ 30 }
    ensures ok { IfOk result (λ made. (words : Vocabulary) (own : List (List ℕ)) →
        AreWordTables words tables.now → ArePlacesOf own params.now → made ≡
        firsts same_schema_atom (map
        (schema_atom_said (words_named words.predicates) (names_of words.objects) own)
        (atoms_in due (own_words (drop start said.now))))) }
{
    let mut made = List::empty(alloc);
    let mut seen = Seen::nothing(alloc);
    for place in start..said.len() {
        let role = said.item(place).role;
        if is_action(role) {
            return Ok(made);
        }
        if !is_saying(role, due) {
            continue;
        }
        let atom = atom_said(alloc, tables, params, said, place)?;
        push_first(alloc, &mut made, &mut seen, atom)?;
    }
    Ok(made)
}

// The cost that a number is.
fn number_said(text: &Text) -> Option<CostExpr>
    ensures { result ≡ option_map CostExpr.Number (number text.now) }
{
    match number_of(text.bytes()) {
        None => None,
        Some(number) => Some(CostExpr::Number(number)),
    }
}

/// How an action raises the total cost, by the words from a place after its name on.
pub fn increase_said(
    alloc: Global,
    tables: &WordTables,
    params: &NameTable,
    said: &List<Word>,
    start: usize,
) -> Result<Option<CostExpr>, NoMemory>
    requires few { length said.now < 2 ^ 30 }
    ensures ok { IfOk result (λ made. (words : Vocabulary) (own : List (List ℕ)) →
        AreWordTables words tables.now → ArePlacesOf own params.now → made ≡
        increase_in (words_named words.functions) (names_of words.objects) own
        (own_words (drop start said.now))) }
{
    for place in start..said.len() {
        let word = said.item(place);
        match word.role {
            Role::Action => return Ok(None),
            Role::Numeral => return Ok(number_said(&word.text)),
            Role::Cost => {
                return Ok(Some(CostExpr::Call {
                    function: place_in(&tables.functions, &word.text),
                    args: terms_said(alloc, &tables.objects, params, said, place + 1)?,
                }));
            }
            _ => {}
        }
    }
    Ok(None)
}
