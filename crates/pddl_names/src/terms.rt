//! The type of a term.

ghost use Rattle.std.specs.Prelude.{◌≡◌, ◌+◌, ◌-◌, ◌<◌, ◌≤◌, IsTrue, List, length, drop, take};
ghost use Rattle.std.specs.Prelude.{IfSome, slice_get};
ghost use Rattle.std.specs.Option.{option_map};
ghost use Rattle.pddl_names.specs.declared.role.Word as said;
ghost use Rattle.pddl_names.specs.Groups.{text_at};
ghost use Rattle.pddl_names.specs.Listings.{Declared, is_term};
ghost use Rattle.pddl_names.specs.Naming.{is_variable, params_round, term_type, due_type};
ghost use Rattle.pddl_names.specs.Naming.{is_wrong_type};
ghost use Rattle.pddl_names.specs.Tables.{AreNames, AreTables, AreSized, IsCurrentAction, AreTermsFrom};

use crate::groups::is_term;
use crate::name_tables::{CurrentAction, Tables};
use crate::role::Word;
use mre_base::{List, Text};

// A variable begins with a `?`.
fn is_variable(text: &Text) -> bool
    ensures { result ≡ is_variable text.now }
{
    match text.bytes() {
        [first, ..] => *first == 63,
        [] => false,
    }
}

impl Tables {
    // The text at a place, and `object` past the last word.
    fn text_at<'a>(&'a self, words: &'a List<Word>, place: u32) -> &'a Text
        ensures { (known : Declared) → AreNames known self.now.names →
            result.now ≡ text_at words.now place }
    {
        if (place as usize) < words.len() {
            &words.item(place as usize).text
        } else {
            &self.names.object
        }
    }

    /// The type of a term, if something declares it: a parameter of the action that a word belongs
    /// to, or an object.
    pub(crate) fn term_type<'a>(
        &'a self,
        words: &'a List<Word>,
        place: usize,
        action: &CurrentAction,
        text: &Text,
    ) -> Option<&'a Text>
        requires place { place < length words.now }
        requires action { IsCurrentAction words.now place action.now }
        requires sizes { AreSized words.now self.now }
        ensures { (known : Declared) → AreTables known words.now self.now →
            IfSome (slice_get words.now place) (λ w. option_map (λ type. type.now) result
            ≡ term_type known (params_round (take place words.now) w (drop (place + 1) words.now))
            text.now) }
    {
        if !is_variable(text) {
            return self.names.objects.first(text);
        }
        match action.params.number(text) {
            Some(param) => Some(self.text_at(words, self.types[param as usize])),
            None => None,
        }
    }

    /// The type that a term is due to have, where terms begin at a place.
    pub(crate) fn due_type(&self, words: &List<Word>, place: usize, from: usize) -> Option<&Text>
        requires place { place < length words.now }
        requires from { AreTermsFrom words.now place from }
        ensures { (known : Declared) → AreNames known self.now.names →
            option_map (λ type. type.now) result ≡ due_type known (take place words.now) }
    {
        if from == 0 {
            return None;
        }
        match self.names.due_types(words.item(from - 1)) {
            Some(types) if place - from < types.len() => Some(types.item(place - from)),
            _ => None,
        }
    }

    /// Whether a term's type is neither the one that is due nor below it.
    pub(crate) fn is_wrong_type(
        &self,
        words: &List<Word>,
        place: usize,
        action: &CurrentAction,
        from: usize,
    ) -> bool
        requires place { place < length words.now }
        requires action { IsCurrentAction words.now place action.now }
        requires from { AreTermsFrom words.now place from }
        requires sizes { AreSized words.now self.now }
        ensures { (known : Declared) → AreTables known words.now self.now →
            IfSome (slice_get words.now place) (λ w.
            result ≡ is_wrong_type known (take place words.now) w (drop (place + 1) words.now)) }
    {
        let word = words.item(place);
        if !is_term(word) {
            return false;
        }
        match self.term_type(words, place, action, &word.text) {
            Some(found) => match self.due_type(words, place, from) {
                Some(due) => !self.names.tree.is_below(found, due),
                None => false,
            },
            None => false,
        }
    }
}
