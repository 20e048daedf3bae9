//! Gathers what the words of a text declare.

ghost use Rattle.std.specs.Prelude.{◌≡◌, ◌+◌, ◌++◌, ◌<◌, length, drop, IfOk, IsTrue};
ghost use Rattle.pddl_names.specs.Arities.{is_signed, signed_in};
ghost use Rattle.pddl_names.specs.Groups.{text_at, AreTypePlaces};
ghost use Rattle.pddl_names.specs.Known.{declared_in, is_typed, typed_in, is_variable_role};
ghost use Rattle.pddl_names.specs.Known.{is_group_role};
ghost use Rattle.pddl_names.specs.Listings.{declared, own_params, types_of};

use crate::kind::Kind;
use crate::known::Known;
use crate::role::{Role, Word};
use mre_base::{List, NoMemory, Text};
use std::alloc::Global;

impl Known {
    /// With what the words declare after it. `places` has the place of each word's type.
    pub fn with_words(
        self,
        alloc: Global,
        words: &List<Word>,
        places: &Vec<u32>,
    ) -> Result<Known, NoMemory>
        requires places { AreTypePlaces words.now places.now.items }
        ensures ok { IfOk result (λ made. declared_in made
            ≡ declared (declared_in self) words.now) }
    {
        Ok(Known {
            types: with_typed(alloc, self.types, words, places, Kind::Types)?,
            objects: with_typed(alloc, self.objects, words, places, Kind::Objects)?,
            predicates: with_signed(alloc, self.predicates, words, places, Kind::Predicates)?,
            functions: with_signed(alloc, self.functions, words, places, Kind::Functions)?,
        })
    }
}

// The text at a place, and `object` past the last word.
fn text_at(alloc: Global, words: &List<Word>, place: u32) -> Result<Text, NoMemory>
    ensures ok { IfOk result (λ made. made ≡ text_at words.now place) }
{
    if (place as usize) < words.len() {
        words.item(place as usize).text.copy(alloc)
    } else {
        Text::of(alloc, "object")
    }
}

// With the types or the objects that the words list after them.
fn with_typed(
    alloc: Global,
    entries: List<(Text, Text)>,
    words: &List<Word>,
    places: &Vec<u32>,
    kind: Kind,
) -> Result<List<(Text, Text)>, NoMemory>
    requires kind { IsTrue (is_typed kind) }
    requires places { AreTypePlaces words.now places.now.items }
    ensures ok { IfOk result (λ made. made ≡ entries ++ typed_in kind words.now) }
{
    let mut made = entries;
    for place in 0..words.len() {
        let word = words.item(place);
        if !kind.has(word.role) {
            continue;
        }
        let parent = text_at(alloc, words, places[place])?;
        made.push((word.text.copy(alloc)?, parent))?;
    }
    Ok(made)
}

// Whether a word of this role is a parameter, and whether it goes on with a group of them.
fn is_variable(role: Role) -> bool
    ensures { result ≡ is_variable_role role }
{
    matches!(role, Role::Variable { .. })
}

fn is_group(role: Role) -> bool
    ensures { result ≡ is_group_role role }
{
    matches!(role, Role::Dash | Role::VariableType)
}

// The types of the parameters from a place on.
fn param_types(
    alloc: Global,
    words: &List<Word>,
    places: &Vec<u32>,
    start: usize,
) -> Result<List<Text>, NoMemory>
    requires places { AreTypePlaces words.now places.now.items }
    ensures ok { IfOk result (λ made. made ≡ types_of (own_params (drop start words.now))) }
{
    let mut made = List::empty(alloc);
    for place in start..words.len() {
        let role = words.item(place).role;
        if is_variable(role) {
            made.push(text_at(alloc, words, places[place])?)?;
            continue;
        }
        if !is_group(role) {
            return Ok(made);
        }
    }
    Ok(made)
}

// With the predicates or the functions that the words declare after them.
fn with_signed(
    alloc: Global,
    entries: List<(Text, List<Text>)>,
    words: &List<Word>,
    places: &Vec<u32>,
    kind: Kind,
) -> Result<List<(Text, List<Text>)>, NoMemory>
    requires kind { IsTrue (is_signed kind) }
    requires places { AreTypePlaces words.now places.now.items }
    ensures ok { IfOk result (λ made. made ≡ entries ++ signed_in kind words.now) }
{
    let mut made = entries;
    for place in 0..words.len() {
        let word = words.item(place);
        if !kind.has(word.role) {
            continue;
        }
        let types = param_types(alloc, words, places, place + 1)?;
        made.push((word.text.copy(alloc)?, types))?;
    }
    Ok(made)
}
