//! The objects, predicates, functions and actions that words declare.

ghost use Rattle.std.specs.Prelude.{◌≡◌, ◌≤◌, ◌<◌, ◌+◌, drop, length, map, IfOk};
ghost use Rattle.pddl_names.specs.Listings.{own_params, action_params, types_of};
ghost use Rattle.pddl_vocabulary.specs.VocabularyTypes.{type_number, AreTypesOf};
ghost use Rattle.pddl_vocabulary.specs.VocabularyLists.{objects_numbered, params_behind};
ghost use Rattle.pddl_vocabulary.specs.VocabularyLists.{is_left_out, is_entry_word, entries_said};

use crate::vocabulary_types::TypeNumbers;
use model_kit::Signature;
use mre_base::{List, NoMemory, Text};
use pddl_names::{Kind, Role, Word, is_action, is_param};
use std::alloc::Global;

/// The objects that are listed, with the numbers of their types, also those that are listed again.
pub fn objects_listed(
    alloc: Global,
    words: &List<Word>,
    types: &TypeNumbers,
) -> Result<List<(Text, u32)>, NoMemory>
    requires types { AreTypesOf words.now types.now }
    ensures ok { IfOk result (λ made. made ≡ objects_numbered (type_number types.now) words.now) }
{
    let mut made = List::empty(alloc);
    for place in 0..words.len() {
        let word = words.item(place);
        if Kind::Objects.has(word.role) {
            made.push((word.text.copy(alloc)?, types.behind(words, place)))?;
        }
    }
    Ok(made)
}

// The numbers of the types of the parameters after the name of a predicate or a function.
fn own_types(
    alloc: Global,
    words: &List<Word>,
    start: usize,
    types: &TypeNumbers,
) -> Result<List<u32>, NoMemory>
    requires types { AreTypesOf words.now types.now }
    ensures ok { IfOk result (λ made. made
        ≡ map (type_number types.now) (types_of (own_params (drop start words.now)))) }
{
    let mut made = List::empty(alloc);
    for place in start..words.len() {
        match words.item(place).role {
            Role::Variable { .. } => made.push(types.behind(words, place))?,
            Role::Dash | Role::VariableType => continue,
            _ => return Ok(made),
        }
    }
    Ok(made)
}

// The numbers of the types of the parameters after the name of an action.
fn action_types(
    alloc: Global,
    words: &List<Word>,
    start: usize,
    types: &TypeNumbers,
) -> Result<List<u32>, NoMemory>
    requires types { AreTypesOf words.now types.now }
    ensures ok { IfOk result (λ made. made
        ≡ map (type_number types.now) (types_of (action_params (drop start words.now)))) }
{
    let mut made = List::empty(alloc);
    for place in start..words.len() {
        let role = words.item(place).role;
        if is_action(role) {
            return Ok(made);
        }
        if is_param(role) {
            made.push(types.behind(words, place))?;
        }
    }
    Ok(made)
}

// The numbers of the types of the parameters after a name of this kind.
fn params_behind(
    alloc: Global,
    words: &List<Word>,
    start: usize,
    kind: Kind,
    types: &TypeNumbers,
) -> Result<List<u32>, NoMemory>
    requires types { AreTypesOf words.now types.now }
    ensures ok { IfOk result (λ made. made
        ≡ map (type_number types.now) (params_behind kind (drop start words.now))) }
{
    match kind {
        Kind::Actions => action_types(alloc, words, start, types),
        _ => own_types(alloc, words, start, types),
    }
}

// Whether the name is that of the sum of all costs, among the functions.
fn is_left_out(kind: Kind, name: &Text) -> bool
    ensures { result ≡ is_left_out kind name.now }
{
    match kind {
        Kind::Functions => name.bytes() == b"total-cost".as_slice(),
        _ => false,
    }
}

// Whether the word is the name of an entry of the kind.
fn is_entry_word(kind: Kind, word: &Word) -> bool
    ensures { result ≡ is_entry_word kind word.now }
{
    kind.has(word.role) && !is_left_out(kind, &word.text)
}

/// The predicates, the functions or the actions that are declared, in written order.
pub fn entries_of(
    alloc: Global,
    words: &List<Word>,
    kind: Kind,
    types: &TypeNumbers,
) -> Result<List<Signature>, NoMemory>
    requires types { AreTypesOf words.now types.now }
    ensures ok { IfOk result (λ made. made ≡ entries_said (type_number types.now) kind words.now) }
{
    let mut made = List::empty(alloc);
    for place in 0..words.len() {
        let word = words.item(place);
        if is_entry_word(kind, word) {
            made.push(Signature {
                name: word.text.copy(alloc)?,
                params: params_behind(alloc, words, place + 1, kind, types)?,
            })?;
        }
    }
    Ok(made)
}
