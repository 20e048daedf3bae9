//! The check of names: goes over the words once, up to the first that breaks a rule.

ghost use Rattle.std.specs.Prelude.{◌≡◌, ◌+◌, ◌<◌, ◌^◌, [], IfOk, IfSome, length, take, drop};
ghost use Rattle.std.specs.Prelude.{slice_get};
ghost use Rattle.pddl_names.specs.declared.role.Word as said;
ghost use Rattle.pddl_names.specs.Checks.{first_rule_of, names_read, next_from};
ghost use Rattle.pddl_names.specs.Known.{declared_before};
ghost use Rattle.pddl_names.specs.Listings.{Declared, declared, nothing};
ghost use Rattle.pddl_names.specs.Naming.{IsNamed, IsMisnamed};
ghost use Rattle.pddl_names.specs.Params.{AreParamPlaces};
ghost use Rattle.pddl_names.specs.Reading.{Answers};
ghost use Rattle.pddl_names.specs.Tables.{AreTables, AreSized, IsCurrentAction, AreTermsFrom};
ghost use Rattle.pddl_names.specs.Texts.{declared_by};
ghost use Rattle.pddl_text.specs.Answers.{Gives, IfFault};

use crate::groups::is_term;
use crate::known::Base;
use crate::name_tables::{CurrentAction, Tables};
use crate::names::NameTable;
use crate::role::{Word, is_action};
use model_kit::Vocabulary;
use mre_base::{List, NoMemory};
use pddl_text::{ReadStop, TextFault, TextRule};
use std::alloc::Global;

// More words than any text has.
const MANY: usize = 1 << 29;

/// That the words of a text break no rule of names after what was declared before, or else the
/// first fault. Memory runs out where there are more words than any text has.
pub fn check_names(alloc: Global, base: Base<'_>, words: &List<Word>) -> Result<(), ReadStop>
    ensures ok { IfOk result (λ _. IsNamed (declared_before base.entry) words.now) }
    ensures fault { IfFault result (IsMisnamed (declared_before base.entry) words.now) }
{
    if words.len() >= MANY {
        return Err(ReadStop::NoMemory);
    }
    match Tables::of(alloc, base, words) {
        Ok(tables) => tables.check(alloc, words),
        Err(_) => Err(ReadStop::NoMemory),
    }
}

/// The same of a domain, before which nothing is declared.
pub fn check_domain_names(alloc: Global, words: &List<Word>) -> Result<(), ReadStop>
    ensures ok { IfOk result (λ _. IsNamed nothing words.now) }
    ensures fault { IfFault result (IsMisnamed nothing words.now) }
{
    let entries = List::empty(alloc);
    let signatures = List::empty(alloc);
    let base = Base {
        types: &entries,
        objects: &entries,
        predicates: &signatures,
        functions: &signatures,
    };
    check_names(alloc, base, words)
}

/// The same of a problem, before which its domain is declared.
pub fn check_problem_names(
    alloc: Global,
    domain: &Vocabulary,
    words: &List<Word>,
) -> Result<(), ReadStop>
    ensures ok { IfOk result (λ _. IsNamed (declared_by domain.now) words.now) }
    ensures fault { IfFault result (IsMisnamed (declared_by domain.now) words.now) }
{
    let base = Base {
        types: &domain.types,
        objects: &domain.objects,
        predicates: &domain.predicates,
        functions: &domain.functions,
    };
    check_names(alloc, base, words)
}

// The fault of a word that breaks a rule.
fn fault_at(alloc: Global, word: &Word, rule: TextRule) -> ReadStop
    ensures { Answers result (record { at = word.now.at; rule = rule; word = word.now.text }) }
{
    match word.text.copy(alloc) {
        Ok(text) => ReadStop::Fault(TextFault {
            at: word.at,
            rule,
            word: text,
        }),
        Err(_) => ReadStop::NoMemory,
    }
}

impl CurrentAction {
    // The words from a place on are those of an action, up to the next.
    fn from(alloc: Global, words: &List<Word>, start: usize) -> Result<CurrentAction, NoMemory>
        requires few { length words.now < 2 ^ 30 }
        ensures ok { IfOk result (λ action. action.start ≡ start) }
        ensures params { IfOk result (λ action. AreParamPlaces words.now start action.params) }
    {
        Ok(CurrentAction {
            start,
            params: NameTable::of_params(alloc, words, start)?,
        })
    }

    // The action that the next word belongs to.
    fn past(
        self,
        alloc: Global,
        words: &List<Word>,
        place: usize,
    ) -> Result<CurrentAction, NoMemory>
        requires few { length words.now < 2 ^ 30 }
        requires place { place < length words.now }
        requires action { IsCurrentAction words.now place self }
        ensures ok { IfOk result (IsCurrentAction words.now (place + 1)) }
    {
        if is_action(words.item(place).role) {
            CurrentAction::from(alloc, words, place + 1)
        } else {
            Ok(self)
        }
    }
}

impl Tables {
    // Whether the words break no rule of names; else the first fault.
    fn check(&self, alloc: Global, words: &List<Word>) -> Result<(), ReadStop>
        requires few { length words.now < 2 ^ 30 }
        requires sizes { AreSized words.now self.now }
        ensures { (base : Declared) → AreTables (declared base words.now) words.now self.now →
            Gives result (names_read base words.now) }
    {
        let mut action = CurrentAction::from(alloc, words, 0)?;
        let mut from = 0;
        for place in 0..words.len() {
            let word = words.item(place);
            match self.broken_rule(words, place, &action, from) {
                Some(rule) => return Err(fault_at(alloc, word, rule)),
                None => {}
            }
            action = action.past(alloc, words, place)?;
            from = terms_from(word, place, from);
        }
        Ok(())
    }

    // The first rule that a word breaks.
    fn broken_rule(
        &self,
        words: &List<Word>,
        place: usize,
        action: &CurrentAction,
        from: usize,
    ) -> Option<TextRule>
        requires place { place < length words.now }
        requires action { IsCurrentAction words.now place action.now }
        requires from { AreTermsFrom words.now place from }
        requires sizes { AreSized words.now self.now }
        ensures { (known : Declared) → AreTables known words.now self.now →
            IfSome (slice_get words.now place) (λ w.
            result ≡ first_rule_of known (take place words.now) w (drop (place + 1) words.now)) }
    {
        if self.is_twice(words, place, action) {
            Some(TextRule::Twice)
        } else if self.is_cycle(words, place) {
            Some(TextRule::TypeCycle)
        } else if self.is_undeclared(words, place, action) {
            Some(TextRule::Undeclared)
        } else if self.heads.is_wrong_arity(words, place) {
            Some(TextRule::WrongArity)
        } else if self.is_wrong_type(words, place, action, from) {
            Some(TextRule::WrongType)
        } else {
            None
        }
    }
}

// Where the terms of a word at a place begin, if it has any, by where those before it begin.
fn terms_from(word: &Word, place: usize, from: usize) -> usize
    requires place { place < 2 ^ 30 }
    ensures { result ≡ next_from word.now place from }
{
    if is_term(word) { from } else { place + 1 }
}
