//! The types that words declare, by number.

ghost use Rattle.std.specs.Prelude.{◌≡◌, ◌+◌, ◌<◌, ◌^◌, ◌∷◌, codes, drop, length, map, IfOk};
ghost use Rattle.pddl_names.specs.Kinds.{ArePlaces};
ghost use Rattle.pddl_names.specs.Listings.{type_behind};
ghost use Rattle.pddl_vocabulary.specs.Values.{type_words as words_of_types};
ghost use Rattle.pddl_vocabulary.specs.VocabularyTypes.{is_type_name, type_number, AreTypesOf};
ghost use Rattle.pddl_vocabulary.specs.VocabularyLists.{parent_said, type_said};

use mre_base::{List, NoMemory, Text};
use pddl_names::{Kind, NameTable, Role, Word};
use std::alloc::Global;

/// The numbers of types by their names, and the place of the type of each word of a group.
pub struct TypeNumbers {
    pub numbers: NameTable,
    pub places: Vec<u32>,
}

impl Drop for TypeNumbers {
    fn drop(self) {
        let TypeNumbers {
            numbers: _,
            places: _,
        } = self;
    }
}

impl TypeNumbers {
    /// The number of the type of a word.
    pub fn behind(&self, words: &List<Word>, place: usize) -> u32
        requires place { place < length words.now }
        requires types { AreTypesOf words.now self.now }
        ensures { result ≡ type_number self.now (type_behind (drop (place + 1) words.now)) }
    {
        let at = self.places[place] as usize;
        if at < words.len() {
            self.numbers.number(&words.item(at).text).unwrap_or(0)
        } else {
            0
        }
    }
}

// Whether a word of this role is the name of a type that is listed or a parent.
fn is_type_name(role: Role) -> bool
    ensures { result ≡ is_type_name role }
{
    matches!(role, Role::ListedType | Role::ParentType)
}

/// `object`, and each name of a type in written order, listed or as a parent.
pub fn type_words(alloc: Global, words: &List<Word>) -> Result<List<Text>, NoMemory>
    ensures ok { IfOk result (λ made. made ≡ codes "object" ∷ words_of_types words.now) }
{
    let mut made = List::empty(alloc);
    made.push(Text::of(alloc, "object")?)?;
    for place in 0..words.len() {
        let word = words.item(place);
        if is_type_name(word.role) {
            made.push(word.text.copy(alloc)?)?;
        }
    }
    Ok(made)
}

// The number of the parent of a type, by where it is listed first.
fn parent_number(words: &List<Word>, types: &TypeNumbers, listed: &NameTable, name: &Text) -> u32
    requires types { AreTypesOf words.now types.now }
    requires listed { ArePlaces Kind.Types words.now listed.now }
    ensures { result ≡ parent_said (type_number types.now) words.now name.now }
{
    match listed.number(name) {
        Some(place) => types.behind(words, place as usize),
        None => 0,
    }
}

/// The types with the numbers of their parents.
pub fn types_of(
    alloc: Global,
    words: &List<Word>,
    types: &TypeNumbers,
    names: &List<Text>,
) -> Result<List<(Text, u32)>, NoMemory>
    requires few { length words.now < 2 ^ 30 }
    requires types { AreTypesOf words.now types.now }
    ensures ok { IfOk result (λ made. made
        ≡ map (type_said (type_number types.now) words.now) names.now) }
{
    let listed = NameTable::of_kind(alloc, words, Kind::Types)?;
    let mut made = List::empty(alloc);
    for place in 0..names.len() {
        let name = names.item(place);
        let parent = parent_number(words, types, &listed, name);
        made.push((name.copy(alloc)?, parent))?;
    }
    Ok(made)
}
