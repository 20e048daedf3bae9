//! Rows of the table: actions, conditions, effects and costs.
ghost use Rattle.std.specs.Prelude.{◌≡◌};
ghost use Rattle.pddl_form.specs.Actions.{action_name, key, condition_head, effect_head, atom_head};
ghost use Rattle.pddl_form.specs.Actions.{total_word, cost, cost_head, terms};

use crate::names::{is_free_sort, is_name_sort, is_term_sort};
use crate::next::{Next, one, only_if, two};
use crate::parts::{KeysSeen, Part};
use crate::seen::no_keys;
use crate::sort::Sort;

/// The name of an action, not reserved.
pub fn action_name(sort: Sort) -> Next
    ensures { result ≡ action_name sort }
{
    only_if(is_free_sort(sort), one(Part::Keys { seen: no_keys() }))
}

/// Each key of an action at most once.
pub fn key(seen: KeysSeen, sort: Sort) -> Next
    ensures { result ≡ key seen sort }
{
    match sort {
        Sort::Parameters => only_if(
            !seen.parameters,
            two(
                Part::ParameterList,
                Part::Keys {
                    seen: KeysSeen {
                        parameters: true,
                        ..seen
                    },
                },
            ),
        ),
        Sort::Precondition => only_if(
            !seen.precondition,
            two(
                Part::Condition,
                Part::Keys {
                    seen: KeysSeen {
                        precondition: true,
                        ..seen
                    },
                },
            ),
        ),
        Sort::Effect => only_if(
            !seen.effect,
            two(
                Part::Effect,
                Part::Keys {
                    seen: KeysSeen {
                        effect: true,
                        ..seen
                    },
                },
            ),
        ),
        _ => Next::Refused,
    }
}

/// `(and COND*)` or `(NAME TERM*)`.
pub fn condition_head(sort: Sort) -> Next
    ensures { result ≡ condition_head sort }
{
    match sort {
        Sort::And => one(Part::Conditions),
        _ => only_if(is_free_sort(sort), one(Part::Terms)),
    }
}

/// `(and EFF*)`, `(not ATOM)`, `(increase (total-cost) COST)` or `(NAME TERM*)`.
pub fn effect_head(sort: Sort) -> Next
    ensures { result ≡ effect_head sort }
{
    match sort {
        Sort::And => one(Part::Effects),
        Sort::Not => one(Part::Negated),
        Sort::Increase => two(Part::Total, Part::Cost),
        _ => only_if(is_free_sort(sort), one(Part::Terms)),
    }
}

/// `(NAME TERM*)`.
pub fn atom_head(sort: Sort) -> Next
    ensures { result ≡ atom_head sort }
{
    only_if(is_free_sort(sort), one(Part::Terms))
}

/// `(total-cost)`.
pub fn total_word(sort: Sort) -> Next
    ensures { result ≡ total_word sort }
{
    match sort {
        Sort::TotalCost => one(Part::Close),
        _ => Next::Refused,
    }
}

/// A number, and the end of the increase.
pub fn cost(sort: Sort) -> Next
    ensures { result ≡ cost sort }
{
    match sort {
        Sort::Numeral => one(Part::Close),
        _ => Next::Refused,
    }
}

/// `(NAME TERM*)` with a name other than `total-cost`.
pub fn cost_head(sort: Sort) -> Next
    ensures { result ≡ cost_head sort }
{
    match sort {
        Sort::TotalCost => Next::Refused,
        _ => only_if(is_name_sort(sort), one(Part::Terms)),
    }
}

/// A name or a variable.
pub fn terms(sort: Sort) -> Next
    ensures { result ≡ terms sort }
{
    only_if(is_term_sort(sort), one(Part::Terms))
}
