//! The faults of tokens that a part doesn't take.
ghost use Rattle.std.specs.Prelude.{◌≡◌};
ghost use Rattle.pddl_form.specs.Faults.{is_negation, is_unsupported, is_number_due, is_declared};
ghost use Rattle.pddl_form.specs.Faults.{word_rule, is_either, is_unsupported_list, fault};
ghost use Rattle.pddl_form.specs.Readings.{Names};

use crate::names::{is_condition_word, is_effect_word, is_name_sort, is_reserved, is_section_word};
use crate::parts::Part;
use crate::sort::Sort;
use mre_base::{NoMemory, Text};
use pddl_text::{Place, ReadStop, TextFault, TextRule};
use std::alloc::Global;

fn is_negation(sort: Sort) -> bool
    ensures { result ≡ is_negation sort }
{
    match sort {
        Sort::Not => true,
        _ => false,
    }
}

/// Whether the word begins a form that is out of scope, where the part is due.
fn is_unsupported(part: Part, sort: Sort) -> bool
    ensures { result ≡ is_unsupported part sort }
{
    match part {
        Part::ConditionHead => is_condition_word(sort),
        Part::GoalHead => is_condition_word(sort),
        Part::EffectHead => is_effect_word(sort),
        Part::FactHead => is_negation(sort),
        Part::Section { .. } => is_section_word(sort),
        Part::Statement { .. } => is_section_word(sort),
        Part::FunctionType => is_name_sort(sort),
        Part::TotalWord => true,
        Part::Metric => true,
        _ => false,
    }
}

fn is_number_due(part: Part) -> bool
    ensures { result ≡ is_number_due part }
{
    match part {
        Part::Cost => true,
        Part::Number => true,
        _ => false,
    }
}

/// Whether the name of an action, a predicate or a function that is declared is due.
fn is_declared(part: Part) -> bool
    ensures { result ≡ is_declared part }
{
    match part {
        Part::ActionName => true,
        Part::PredicateName => true,
        Part::FunctionName => true,
        _ => false,
    }
}

/// The rule that a word breaks where the part doesn't take it.
pub fn word_rule(part: Part, sort: Sort) -> TextRule
    ensures { result ≡ word_rule part sort }
{
    if is_unsupported(part, sort) {
        TextRule::Unsupported
    } else if is_number_due(part) {
        TextRule::NotWhole
    } else if is_declared(part) && is_reserved(sort) {
        TextRule::Reserved
    } else {
        TextRule::Form
    }
}

fn is_either(sort: Sort) -> bool
    ensures { result ≡ is_either sort }
{
    match sort {
        Sort::Either => true,
        _ => false,
    }
}

/// Whether a list that begins with the word is a form that is out of scope, where the part takes no
/// list.
pub fn is_unsupported_list(part: Part, sort: Sort) -> bool
    ensures { result ≡ is_unsupported_list part sort }
{
    match part {
        Part::NameType { .. } => is_either(sort),
        Part::VariableType { .. } => is_either(sort),
        Part::FunctionType => is_either(sort),
        Part::Statements { .. } => is_section_word(sort),
        _ => false,
    }
}

/// The fault with its word, or that memory ran out.
pub fn fault(alloc: Global, at: Place, rule: TextRule, word: &str) -> ReadStop
    ensures { Names result (fault at rule word.now) }
{
    match Text::of(alloc, word) {
        Ok(word) => ReadStop::Fault(TextFault { at, rule, word }),
        Err(NoMemory) => ReadStop::NoMemory,
    }
}
