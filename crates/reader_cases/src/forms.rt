//! Cases of forms: the words of a text, each with what it does.
use mre_base::{List, NoMemory};
use pddl_form::{Listing, Met, Owner, Part, read_domain_form, read_problem_form};
use pddl_text::{ReadStop, read_forest};
use std::alloc::Global;

/// The bytes that a text may have here.
const TEXT_LIMIT: usize = 100_000;

// What a name of a typed list is.
fn listed(listing: Listing) -> &'static str {
    match listing {
        Listing::Types => "=type ",
        Listing::Constants => "=constant ",
        Listing::Objects => "=listed ",
    }
}

// What the type of a group of names is.
fn type_of_listed(listing: Listing) -> &'static str {
    match listing {
        Listing::Types => "=parent ",
        _ => "=type-of-name ",
    }
}

// Whose parameter a variable is.
fn owned(owner: Owner) -> &'static str {
    match owner {
        Owner::Predicate => "=of-predicate ",
        Owner::Function => "=of-function ",
        Owner::Action => "=of-action ",
    }
}

// What a word does where the part is due.
fn role(part: Part) -> &'static str {
    match part {
        Part::DomainName => "=name ",
        Part::ProblemName => "=name ",
        Part::OfDomainName => "=of-domain ",
        Part::Words => "=requirement ",
        Part::Names { listing } => listed(listing),
        Part::NamesMore { listing } => listed(listing),
        Part::NameType { listing } => type_of_listed(listing),
        Part::PredicateName => "=predicate ",
        Part::FunctionName => "=function ",
        Part::FunctionType => "=type-of-function ",
        Part::Variables { owner } => owned(owner),
        Part::VariablesMore { owner } => owned(owner),
        Part::VariableType { .. } => "=type-of-variable ",
        Part::ActionName => "=action ",
        _ => role_inside(part),
    }
}

// The same for a word of a condition, an effect, a cost or a problem's item.
fn role_inside(part: Part) -> &'static str {
    match part {
        Part::ConditionHead => "=needs ",
        Part::EffectHead => "=adds ",
        Part::NegatedHead => "=deletes ",
        Part::Terms => "=term ",
        Part::TotalWord => "=total ",
        Part::Cost => "=number ",
        Part::Number => "=number ",
        Part::CostHead => "=cost ",
        Part::FactHead => "=fact ",
        Part::ValuedHead => "=valued ",
        Part::GoalHead => "=goal ",
        Part::Objects => "=object ",
        _ => " ",
    }
}

// The rule, the place and the word of a fault, as `RULE@LINE:COLUMN WORD`.
fn stop_shown(alloc: Global, stop: &ReadStop) -> Result<String, NoMemory> {
    match stop {
        ReadStop::Fault(fault) => {
            let rule = fault.rule.name();
            let line = fault.at.line;
            let column = fault.at.column;
            let word = fault.word.as_str();
            Ok(format!(in alloc; "{rule}@{line}:{column} {word}")?)
        }
        ReadStop::NoMemory => Err(NoMemory),
    }
}

// Each word with what it does.
fn words_shown(alloc: Global, words: &List<Met>) -> Result<String, NoMemory> {
    let mut shown = String::new(alloc);
    for place in 0..words.len() {
        let met = words.item(place);
        shown.push_str(met.text.as_str())?;
        shown.push_str(role(met.part))?;
    }
    Ok(shown)
}

/// The words of a domain's text, each with what it does, or the first fault.
pub fn domain_form(alloc: Global, text: &str) -> Result<String, NoMemory> {
    if text.len() > TEXT_LIMIT {
        return Err(NoMemory);
    }
    match read_forest(alloc, text.as_bytes()) {
        Ok(forest) => match read_domain_form(alloc, &forest) {
            Ok(words) => words_shown(alloc, &words),
            Err(stop) => stop_shown(alloc, &stop),
        },
        Err(stop) => stop_shown(alloc, &stop),
    }
}

/// The same for a problem's text.
pub fn problem_form(alloc: Global, text: &str) -> Result<String, NoMemory> {
    if text.len() > TEXT_LIMIT {
        return Err(NoMemory);
    }
    match read_forest(alloc, text.as_bytes()) {
        Ok(forest) => match read_problem_form(alloc, &forest) {
            Ok(words) => words_shown(alloc, &words),
            Err(stop) => stop_shown(alloc, &stop),
        },
        Err(stop) => stop_shown(alloc, &stop),
    }
}
