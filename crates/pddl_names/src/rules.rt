//! The five rules of names, word by word.

ghost use Rattle.std.specs.Prelude.{◌≡◌, ◌+◌, ◌<◌, ◌≤◌, ◌&&◌, IsTrue, List, codes, length, map};
ghost use Rattle.std.specs.Prelude.{take, drop, IfSome, slice_get};
ghost use Rattle.std.specs.List.{list_any, between};
ghost use Rattle.std.specs.Option.{option_map};
ghost use Rattle.std.specs.Str.{bytes_eq};
ghost use Rattle.pddl_names.specs.declared.role.Role.TheVariants as roles;
ghost use Rattle.pddl_names.specs.declared.role.Word as said;
ghost use Rattle.pddl_names.specs.declared.kind.Kind.TheVariants as kinds;
ghost use Rattle.pddl_names.specs.Groups.{text_at};
ghost use Rattle.pddl_names.specs.Kinds.{declares};
ghost use Rattle.pddl_names.specs.Listings.{Declared};
ghost use Rattle.pddl_names.specs.Naming.{is_other, is_twice, is_cycle, is_undeclared, due_types};
ghost use Rattle.pddl_names.specs.Params.{is_param};
ghost use Rattle.pddl_names.specs.Tables.{AreNames, AreTables, AreSized, IsCurrentAction};
ghost use Rattle.pddl_names.specs.Tables.{is_increase_role};
ghost use Rattle.pddl_names.specs.Tables.{first_before};
ghost use Rattle.pddl_names.specs.Numbers.{number_in};

use crate::climbing::is_same;
use crate::kind::Kind;
use crate::name_tables::{CurrentAction, Names, Tables};
use crate::names::NameTable;
use crate::role::{Role, Word};
use mre_base::{List, Text};
use pddl_form::Owner;

impl Names {
    /// The types that the terms of a head must have.
    pub fn due_types(&self, word: &Word) -> Option<&List<Text>>
        ensures { (known : Declared) → AreNames known self.now →
            option_map (λ types. types.now) result ≡ due_types known word.now }
    {
        match word.role {
            Role::Head { .. } => self.predicates.first(&word.text),
            Role::Cost | Role::Value => self.functions.first(&word.text),
            _ => None,
        }
    }
}

// Whether the text at a place, or `object` past the last word, is a text.
fn stands_at(words: &List<Word>, place: u32, text: &Text) -> bool
    ensures { result ≡ bytes_eq text.now (text_at words.now place) }
{
    if (place as usize) < words.len() {
        is_same(text, &words.item(place as usize).text)
    } else {
        text.as_str() == "object"
    }
}

// Whether there is a type, and it is another than the one at a place.
fn is_other_type(first: Option<&Text>, words: &List<Word>, place: u32) -> bool
    ensures { result ≡ is_other (option_map (λ text. text.now) first.entry) (text_at words.now
        place) }
{
    match first {
        Some(text) => !stands_at(words, place, text),
        None => false,
    }
}

// Whether a word is the head of an increase, with this text.
fn is_increase(word: &Word, text: &Text) -> bool
    ensures { result ≡ (is_increase_role word.now.role && bytes_eq word.now.text text.now) }
{
    matches!(&word.role, Role::Increase) && is_same(&word.text, text)
}

// Whether an increase with this text comes before it in its action.
fn is_increased(words: &List<Word>, start: usize, place: usize, text: &Text) -> bool
    requires place { place < length words.now }
    requires start { start ≤ place }
    ensures { result ≡ list_any (λ (v : said.Word). is_increase_role v.role
        && bytes_eq v.text text.now)
        (between start place words.now) }
{
    for earlier in start..place {
        if is_increase(words.item(earlier), text) {
            return true;
        }
    }
    false
}

// Whether a parameter is one of an action.
fn is_of_action(owner: Owner) -> bool
    ensures { result ≡ is_param (roles.Variable owner) }
{
    matches!(owner, Owner::Action)
}

// Whether a name is first declared before a place.
fn is_before(table: &NameTable, name: &Text, place: usize) -> bool
    ensures { result ≡ first_before (number_in table.now name.now) place }
{
    match table.number(name) {
        Some(first) => (first as usize) < place,
        None => false,
    }
}

// Whether a word lists a type with this name.
fn is_listing(word: &Word, name: &Text) -> bool
    ensures { result ≡ declares kinds.Types name.now word.now }
{
    Kind::Types.has(word.role) && is_same(&word.text, name)
}

// Whether a type with this name is listed before a place.
fn is_listed_before(words: &List<Word>, place: usize, name: &Text) -> bool
    requires place { place < length words.now }
    ensures { result ≡ list_any (declares kinds.Types name.now) (between 0 place words.now) }
{
    for earlier in 0..place {
        if is_listing(words.item(earlier), name) {
            return true;
        }
    }
    false
}

impl Tables {
    /// Whether a type is listed again with another parent, an object with another type, a
    /// predicate, a function or an action is declared again, a parameter or an increase is repeated
    /// in one action, or a function has another number.
    pub(crate) fn is_twice(&self, words: &List<Word>, place: usize, action: &CurrentAction) -> bool
        requires place { place < length words.now }
        requires action { IsCurrentAction words.now place action.now }
        requires sizes { AreSized words.now self.now }
        ensures { (known : Declared) → AreTables known words.now self.now →
            IfSome (slice_get words.now place) (λ w.
            result ≡ is_twice known (take place words.now) w (drop (place + 1) words.now)) }
    {
        let word = words.item(place);
        match word.role {
            Role::ListedType => {
                is_other_type(self.names.types.first(&word.text), words, self.types[place])
            }
            Role::ListedObject => {
                is_other_type(
                    self.names.objects.first(&word.text),
                    words,
                    self.types[place],
                )
            }
            Role::Predicate => is_before(&self.predicates, &word.text, place),
            Role::Function => is_before(&self.functions, &word.text, place),
            Role::Action => is_before(&self.actions, &word.text, place),
            Role::Variable { owner } => {
                is_of_action(owner) && is_before(&action.params, &word.text, place)
            }
            Role::Increase => is_increased(words, action.start, place, &word.text),
            Role::Value => self.is_other_value(words, place),
            _ => false,
        }
    }

    /// Whether a type is listed whose chain of parents comes back to it, and it is listed here
    /// first.
    pub(crate) fn is_cycle(&self, words: &List<Word>, place: usize) -> bool
        requires place { place < length words.now }
        requires sizes { AreSized words.now self.now }
        ensures { (known : Declared) → AreTables known words.now self.now →
            IfSome (slice_get words.now place) (λ w. result
            ≡ is_cycle known (take place words.now) w) }
    {
        let word = words.item(place);
        match word.role {
            Role::ListedType => {
                if self.names.tree.comes_back(&word.text) {
                    !is_listed_before(words, place, &word.text)
                } else {
                    false
                }
            }
            _ => false,
        }
    }

    /// Whether nothing declares the type, the predicate, the function, the variable or the object.
    pub(crate) fn is_undeclared(
        &self,
        words: &List<Word>,
        place: usize,
        action: &CurrentAction,
    ) -> bool
        requires place { place < length words.now }
        requires action { IsCurrentAction words.now place action.now }
        requires sizes { AreSized words.now self.now }
        ensures { (known : Declared) → AreTables known words.now self.now →
            IfSome (slice_get words.now place) (λ w.
            result ≡ is_undeclared known (take place words.now) w (drop (place + 1) words.now)) }
    {
        let word = words.item(place);
        match word.role {
            Role::ObjectType | Role::VariableType => !self.names.tree.is_type(&word.text),
            Role::Head { .. } | Role::Cost | Role::Value => self.heads.is_unknown(words, word),
            Role::Term => self.term_type(words, place, action, &word.text).is_none(),
            _ => false,
        }
    }
}
