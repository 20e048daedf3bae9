//! Reads a forest as a domain or a problem, part by part.
ghost use Rattle.std.specs.Prelude.{◌≡◌, ◌∷◌, ◌++◌, [], ℕ, List as ListOf, reverse, IfOk, OnOk};
ghost use Rattle.std.specs.Prelude.{MatchOption, Some, None, map, if◌then◌else◌};
ghost use Rattle.std.specs.List.{AllByRecursion};
ghost use Rattle.pddl_text.specs.Answers.{IfFault, AnswersOk, AnswersFault, Gives};
ghost use Rattle.pddl_text.specs.Forests.{tokens_of, tokens_of_all};
ghost use Rattle.pddl_text.specs.Tokens as token;
ghost use Rattle.pddl_text.specs.declared.fault.TextFault as faults;
ghost use Rattle.pddl_text.specs.declared.place.Place as place;
ghost use Rattle.pddl_form.specs.declared.parts.Part.{Part as PartOf};
ghost use Rattle.pddl_form.specs.declared.parts.Met as parts;
ghost use Rattle.pddl_form.specs.declared.parts.Part.TheVariants as due;
ghost use Rattle.pddl_form.specs.Faults.{head, open_fault};
ghost use Rattle.pddl_form.specs.First.{HasForm, LeavesForm};
ghost use Rattle.pddl_form.specs.Mets.{words_in, word_of, IsTaken};
ghost use Rattle.pddl_form.specs.Readings.{Names, runs};
ghost use Rattle.pddl_form.specs.Runs.{Run, Stopped, goes, run, ends, form_of};

use crate::faults::{fault, is_unsupported_list, word_rule};
use crate::next::Next;
use crate::parts::{Met, Part};
use crate::table::{after_close, after_open, after_word};
use crate::words::sort_of;
use mre_base::{List, NoMemory, Text};
use pddl_text::{Forest, Place, ReadStop, TextRule, Tree};
use std::alloc::Global;

/// A text that is being read: the parts that are due, the next one last, and the words so far.
#[derive(Drop)]
pub struct Reading {
    pub due: Vec<Part>,
    pub met: List<Met>,
}

/// The word, if the tree is one.
fn head_of_tree(tree: &Tree) -> Option<(&Text, Place)>
    ensures { MatchOption result
        ((tokens : ListOf token.Token) → head (tokens_of tree.now ++ tokens) ≡ None)
        (λ word. (tokens : ListOf token.Token) →
        head (tokens_of tree.now ++ tokens) ≡ Some (word.0.now, word.1)) }
{
    match tree {
        Tree::Word { text, at, .. } => Some((text, *at)),
        Tree::Items { .. } => None,
    }
}

/// The word that a list begins with.
fn head_of(list: &List<Tree>) -> Option<(&Text, Place)>
    ensures { MatchOption result
        ((close : place.Place) (tokens : ListOf token.Token) →
        head (tokens_of_all list.now ++ (token.Close close ∷ tokens)) ≡ None)
        (λ word. (close : place.Place) (tokens : ListOf token.Token) →
        head (tokens_of_all list.now ++ (token.Close close ∷ tokens))
        ≡ Some (word.0.now, word.1)) }
{
    if list.is_empty() {
        None
    } else {
        head_of_tree(list.item(0))
    }
}

/// The fault of the `(` of this list, which the part doesn't take.
fn list_stop(alloc: Global, part: Part, at: Place, list: &List<Tree>) -> ReadStop
    ensures { (close : place.Place) (tokens : ListOf token.Token) → Names result
        (open_fault part at (head (tokens_of_all list.now ++ (token.Close close ∷ tokens)))) }
{
    match head_of(list) {
        Some((text, first)) => {
            if is_unsupported_list(part, sort_of(text.bytes())) {
                fault(alloc, first, TextRule::Unsupported, text.as_str())
            } else {
                fault(alloc, at, TextRule::Form, "(")
            }
        }
        None => fault(alloc, at, TextRule::Form, "("),
    }
}

impl Reading {
    /// The reading of a text before its first token, where this part is the whole text.
    fn of(alloc: Global, start: Part) -> Result<Reading, NoMemory>
        ensures ok { IfOk result (λ reading. (tokens : ListOf token.Token) →
            runs reading tokens ≡ run (start ∷ []) [] tokens) }
    {
        let mut due = Vec::new(alloc);
        due.push(start)?;
        Ok(Reading {
            due,
            met: List::empty(alloc),
        })
    }

    /// Adds what is due in place of a part to the parts that are due. Answers whether the part took
    /// its token.
    fn put(&mut self, next: Next) -> Result<bool, NoMemory>
        ensures ok { IfOk result (λ taken. (stop : faults.TextFault) (go : ListOf PartOf → Run) →
            goes next (reverse self.old.due.items) stop go
            ≡ (if taken then go (reverse self.new.due.items) else Stopped stop)) }
        ensures met { OnOk result (self.new.met ≡ self.old.met) }
    {
        match next {
            Next::Nothing => Ok(true),
            Next::One { part } => {
                self.due.push(part)?;
                Ok(true)
            }
            Next::Two { first, second } => {
                self.due.push(second)?;
                self.due.push(first)?;
                Ok(true)
            }
            Next::Refused => Ok(false),
        }
    }

    /// Takes a word.
    fn word(&mut self, alloc: Global, text: &Text, at: Place) -> Result<(), ReadStop>
        ensures ok { OnOk result ((from past : ℕ) (tokens : ListOf token.Token) →
            runs self.old (token.Word text.now at from past ∷ tokens) ≡ runs self.new tokens) }
        ensures fault { IfFault result (λ found. (from past : ℕ) (tokens : ListOf token.Token) →
            runs self.old (token.Word text.now at from past ∷ tokens) ≡ Stopped found) }
    {
        let Some(part) = self.due.pop() else {
            return Err(fault(alloc, at, TextRule::Form, text.as_str()));
        };
        let sort = sort_of(text.bytes());
        if !self.put(after_word(part, sort))? {
            return Err(fault(alloc, at, word_rule(part, sort), text.as_str()));
        }
        let text = text.copy(alloc)?;
        self.met.push(Met { part, text, at })?;
        Ok(())
    }

    /// Takes the `(` of this list.
    fn open(&mut self, alloc: Global, at: Place, list: &List<Tree>) -> Result<(), ReadStop>
        ensures ok { OnOk result ((tokens : ListOf token.Token) →
            runs self.old (token.Open at ∷ tokens) ≡ runs self.new tokens) }
        ensures fault { IfFault result (λ found.
            (close : place.Place) (tokens : ListOf token.Token) → runs self.old
            (token.Open at ∷ (tokens_of_all list.now ++ (token.Close close ∷ tokens)))
            ≡ Stopped found) }
    {
        let Some(part) = self.due.pop() else {
            return Err(fault(alloc, at, TextRule::Form, "("));
        };
        if !self.put(after_open(part))? {
            return Err(list_stop(alloc, part, at, list));
        }
        Ok(())
    }

    /// Takes a `)`.
    fn close(&mut self, alloc: Global, at: Place) -> Result<(), ReadStop>
        ensures ok { OnOk result ((tokens : ListOf token.Token) →
            runs self.old (token.Close at ∷ tokens) ≡ runs self.new tokens) }
        ensures fault { IfFault result (λ found. (tokens : ListOf token.Token) →
            runs self.old (token.Close at ∷ tokens) ≡ Stopped found) }
    {
        let Some(part) = self.due.pop() else {
            return Err(fault(alloc, at, TextRule::Form, ")"));
        };
        if !self.put(after_close(part))? {
            return Err(fault(alloc, at, TextRule::Form, ")"));
        }
        Ok(())
    }

    /// Takes a list: its `(`, its trees and its `)`.
    #[cycle(tree)]
    fn list(
        &mut self,
        alloc: Global,
        at: Place,
        list: &List<Tree>,
        close: Place,
    ) -> Result<(), ReadStop>
        ensures ok { OnOk result ((tokens : ListOf token.Token) → runs self.old
            (token.Open at ∷ (tokens_of_all list.now ++ (token.Close close ∷ tokens)))
            ≡ runs self.new tokens) }
        ensures fault { IfFault result (λ found. (tokens : ListOf token.Token) → runs self.old
            (token.Open at ∷ (tokens_of_all list.now ++ (token.Close close ∷ tokens)))
            ≡ Stopped found) }
    {
        match self.open(alloc, at, list) {
            Ok(()) => {}
            Err(stop) => return Err(stop),
        }
        match self.trees(alloc, list) {
            Ok(()) => self.close(alloc, close),
            Err(stop) => Err(stop),
        }
    }

    /// Takes a tree.
    #[cycle(tree)]
    fn tree(&mut self, alloc: Global, tree: &Tree) -> Result<(), ReadStop>
        ensures ok { OnOk result ((tokens : ListOf token.Token) →
            runs self.old (tokens_of tree.now ++ tokens) ≡ runs self.new tokens) }
        ensures fault { IfFault result (λ found. (tokens : ListOf token.Token) →
            runs self.old (tokens_of tree.now ++ tokens) ≡ Stopped found) }
    {
        match tree {
            Tree::Word { text, at, .. } => self.word(alloc, text, *at),
            Tree::Items { list, at, close } => self.list(alloc, *at, list, *close),
        }
    }

    /// Takes trees, one after another.
    #[cycle(tree)]
    fn trees(&mut self, alloc: Global, list: &List<Tree>) -> Result<(), ReadStop>
        ensures ok { OnOk result ((tokens : ListOf token.Token) →
            runs self.old (tokens_of_all list.now ++ tokens) ≡ runs self.new tokens) }
        ensures fault { IfFault result (λ found. (tokens : ListOf token.Token) →
            runs self.old (tokens_of_all list.now ++ tokens) ≡ Stopped found) }
    {
        for place in 0..list.len() {
            match self.tree(alloc, list.item(place)) {
                Ok(()) => {}
                Err(stop) => return Err(stop),
            }
        }
        Ok(())
    }

    /// The words, once the text has ended at this place.
    fn finish(self, alloc: Global, past: Place) -> Result<List<Met>, ReadStop>
        ensures { Gives result (ends past (runs self [])) }
    {
        if self.due.is_empty() {
            Ok(self.met)
        } else {
            Err(fault(alloc, past, TextRule::Form, ""))
        }
    }
}

/// The words of a text, each with the part that took it, where this part is the whole text.
fn read_form(alloc: Global, start: Part, forest: &Forest) -> Result<List<Met>, ReadStop>
    ensures { Gives result (form_of start forest.now) }
{
    let mut reading = Reading::of(alloc, start)?;
    match reading.trees(alloc, &forest.trees) {
        Ok(()) => reading.finish(alloc, forest.past),
        Err(stop) => Err(stop),
    }
}

/// The words of a domain's text in written order, each with what it does there, or the first token
/// that no domain has after the tokens before it.
pub fn read_domain_form(alloc: Global, forest: &Forest) -> Result<List<Met>, ReadStop>
    // The answer is the words of the text, or the fault where it first leaves the grammar.
    ensures ok { IfOk result (HasForm due.Domain (tokens_of_all forest.now.trees)) }
    ensures fault { IfFault result (LeavesForm due.Domain forest.now) }

    // The words of a text in the grammar are the answer, and so is the first fault of any other.
    ensures succeeds { (words : ListOf parts.Met) →
        HasForm due.Domain (tokens_of_all forest.now.trees) words → AnswersOk result words }
    ensures refuses { (found : faults.TextFault) →
        LeavesForm due.Domain forest.now found → AnswersFault result found }
    ensures reads { Gives result (form_of due.Domain forest.now) }

    // These are all the words of the text in written order, and each part takes its word.
    ensures words { IfOk result (λ words.
        map word_of words ≡ words_in (tokens_of_all forest.now.trees)) }
    ensures taken { IfOk result (λ words. AllByRecursion IsTaken words) }
{
    read_form(alloc, Part::Domain, forest)
}

/// The same for a problem's text.
pub fn read_problem_form(alloc: Global, forest: &Forest) -> Result<List<Met>, ReadStop>
    // The answer is the words of the text, or the fault where it first leaves the grammar.
    ensures ok { IfOk result (HasForm due.Problem (tokens_of_all forest.now.trees)) }
    ensures fault { IfFault result (LeavesForm due.Problem forest.now) }

    // The words of a text in the grammar are the answer, and so is the first fault of any other.
    ensures succeeds { (words : ListOf parts.Met) →
        HasForm due.Problem (tokens_of_all forest.now.trees) words → AnswersOk result words }
    ensures refuses { (found : faults.TextFault) →
        LeavesForm due.Problem forest.now found → AnswersFault result found }
    ensures reads { Gives result (form_of due.Problem forest.now) }

    // These are all the words of the text in written order, and each part takes its word.
    ensures words { IfOk result (λ words.
        map word_of words ≡ words_in (tokens_of_all forest.now.trees)) }
    ensures taken { IfOk result (λ words. AllByRecursion IsTaken words) }
{
    read_form(alloc, Part::Problem, forest)
}
