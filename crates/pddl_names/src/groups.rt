//! What follows each word: the type of its group, its terms, its parameters.

ghost use Rattle.std.specs.Prelude.{◌≡◌, ◌<◌, ◌^◌, length, slice_get, IfSome, IfOk};
ghost use Rattle.pddl_names.specs.Groups.{text_at, own_count, AreTypePlaces, AreTermCounts};
ghost use Rattle.pddl_names.specs.Groups.{AreParamCounts};
ghost use Rattle.pddl_names.specs.Listings.{type_at, is_term};

use crate::role::{Role, Word};
use mre_base::{List, NoMemory};
use std::alloc::Global;

// The place of the type of a group that goes on with this word, by its place for the next word.
fn group_place(words: &List<Word>, place: usize, behind: u32) -> u32
    requires place { place < length words.now }
    requires few { length words.now < 2 ^ 30 }
    ensures { IfSome (slice_get words.now place) (λ w.
        text_at words.now result ≡ type_at w.role w.text (text_at words.now behind)) }
{
    match words.item(place).role {
        Role::ListedType | Role::ListedObject | Role::Variable { .. } | Role::Dash => behind,
        Role::ParentType | Role::ObjectType | Role::VariableType => place as u32,
        _ => words.len() as u32,
    }
}

/// The place of the type of each word of a group.
pub fn type_places(alloc: Global, words: &List<Word>) -> Result<Vec<u32>, NoMemory>
    requires few { length words.now < 2 ^ 30 }
    ensures ok { IfOk result (λ places. AreTypePlaces words.now places.items) }
{
    let mut places = vec![in alloc; 0; words.len()]?;
    let mut behind = words.len() as u32;
    for place in (0..words.len()).rev() {
        places[place] = behind;
        behind = group_place(words, place, behind);
    }
    Ok(places)
}

/// Whether a word is a term.
pub fn is_term(word: &Word) -> bool
    ensures { result ≡ is_term word.now }
{
    matches!(&word.role, Role::Term)
}

/// How many terms follow each word.
pub fn term_counts(alloc: Global, words: &List<Word>) -> Result<Vec<u32>, NoMemory>
    requires few { length words.now < 2 ^ 30 }
    ensures ok { IfOk result (λ counts. AreTermCounts words.now counts.items) }
{
    let mut counts = vec![in alloc; 0; words.len()]?;
    let mut behind = 0;
    for place in (0..words.len()).rev() {
        counts[place] = behind;
        behind = if is_term(words.item(place)) {
            behind + 1
        } else {
            0
        };
    }
    Ok(counts)
}

// How many parameters there are from a word on, by how many follow it.
fn own_count(role: Role, behind: u32) -> u32
    requires { behind < 2 ^ 30 }
    ensures { result ≡ own_count role behind }
{
    match role {
        Role::Variable { .. } => behind + 1,
        Role::Dash | Role::VariableType => behind,
        _ => 0,
    }
}

/// How many parameters follow each word.
pub fn param_counts(alloc: Global, words: &List<Word>) -> Result<Vec<u32>, NoMemory>
    requires few { length words.now < 2 ^ 30 }
    ensures ok { IfOk result (λ counts. AreParamCounts words.now counts.items) }
{
    let mut counts = vec![in alloc; 0; words.len()]?;
    let mut behind = 0;
    for place in (0..words.len()).rev() {
        counts[place] = behind;
        behind = own_count(words.item(place).role, behind);
    }
    Ok(counts)
}
