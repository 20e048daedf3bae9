//! Which words are names, and which are reserved or out of scope.
ghost use Rattle.std.specs.Prelude.{◌≡◌};
ghost use Rattle.pddl_form.specs.Names.{is_reserved, is_free_sort, is_name_sort, is_term_sort};
ghost use Rattle.pddl_form.specs.Names.{is_condition_word, is_effect_word, is_section_word};

use crate::sort::Sort;

/// Whether the word is never declared as an action, a predicate or a function.
pub fn is_reserved(sort: Sort) -> bool
    ensures { result ≡ is_reserved sort }
{
    match sort {
        Sort::And => true,
        Sort::Or => true,
        Sort::Not => true,
        Sort::Imply => true,
        Sort::Forall => true,
        Sort::Exists => true,
        Sort::When => true,
        Sort::Increase => true,
        Sort::Decrease => true,
        Sort::Assign => true,
        Sort::ScaleUp => true,
        Sort::ScaleDown => true,
        Sort::Preference => true,
        _ => false,
    }
}

/// Whether the word is a name that isn't reserved.
pub fn is_free_sort(sort: Sort) -> bool
    ensures { result ≡ is_free_sort sort }
{
    match sort {
        Sort::Either => true,
        Sort::Define => true,
        Sort::Domain => true,
        Sort::Problem => true,
        Sort::Minimize => true,
        Sort::TotalCost => true,
        Sort::NumberType => true,
        Sort::Numeral => true,
        Sort::Name => true,
        _ => false,
    }
}

/// Whether the first byte of the word is a letter, a digit or `_`.
pub fn is_name_sort(sort: Sort) -> bool
    ensures { result ≡ is_name_sort sort }
{
    is_reserved(sort) || is_free_sort(sort)
}

/// Whether the word is a name or a variable.
pub fn is_term_sort(sort: Sort) -> bool
    ensures { result ≡ is_term_sort sort }
{
    match sort {
        Sort::Variable => true,
        _ => is_name_sort(sort),
    }
}

/// Whether the word heads a condition that is out of scope.
pub fn is_condition_word(sort: Sort) -> bool
    ensures { result ≡ is_condition_word sort }
{
    match sort {
        Sort::Or => true,
        Sort::Imply => true,
        Sort::Not => true,
        Sort::Forall => true,
        Sort::Exists => true,
        Sort::When => true,
        Sort::Equal => true,
        Sort::Less => true,
        Sort::Greater => true,
        Sort::AtMost => true,
        Sort::AtLeast => true,
        Sort::Preference => true,
        _ => false,
    }
}

/// Whether the word heads an effect that is out of scope.
pub fn is_effect_word(sort: Sort) -> bool
    ensures { result ≡ is_effect_word sort }
{
    match sort {
        Sort::When => true,
        Sort::Forall => true,
        Sort::Assign => true,
        Sort::Decrease => true,
        Sort::ScaleUp => true,
        Sort::ScaleDown => true,
        _ => false,
    }
}

/// Whether the word heads a section that is out of scope.
pub fn is_section_word(sort: Sort) -> bool
    ensures { result ≡ is_section_word sort }
{
    match sort {
        Sort::DurativeAction => true,
        Sort::Derived => true,
        Sort::Axiom => true,
        Sort::Process => true,
        Sort::Event => true,
        Sort::Constraints => true,
        Sort::Length => true,
        _ => false,
    }
}
