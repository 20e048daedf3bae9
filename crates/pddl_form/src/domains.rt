//! Rows of the table: the sections of a domain.
ghost use Rattle.std.specs.Prelude.{◌≡◌};
ghost use Rattle.pddl_form.specs.Domains.{domain_define, domain_word, section, predicate_name};
ghost use Rattle.pddl_form.specs.Domains.{function_name, function_tail, function_type};

use crate::names::is_free_sort;
use crate::next::{Next, one, only_if, two};
use crate::parts::{Listing, Owner, Part, SectionsSeen};
use crate::seen::no_sections;
use crate::sort::Sort;

/// `(define (domain NAME) SECTION*)`.
pub fn domain_define(sort: Sort) -> Next
    ensures { result ≡ domain_define sort }
{
    match sort {
        Sort::Define => two(
            Part::DomainHead,
            Part::Sections {
                seen: no_sections(),
            },
        ),
        _ => Next::Refused,
    }
}

/// `(domain NAME)`.
pub fn domain_word(sort: Sort) -> Next
    ensures { result ≡ domain_word sort }
{
    match sort {
        Sort::Domain => one(Part::DomainName),
        _ => Next::Refused,
    }
}

/// Each section of a domain at most once, except the actions.
pub fn section(seen: SectionsSeen, sort: Sort) -> Next
    ensures { result ≡ section seen sort }
{
    match sort {
        Sort::Requirements => only_if(
            !seen.requirements,
            two(
                Part::Words,
                Part::Sections {
                    seen: SectionsSeen {
                        requirements: true,
                        ..seen
                    },
                },
            ),
        ),
        Sort::Types => only_if(
            !seen.types,
            two(
                Part::Names {
                    listing: Listing::Types,
                },
                Part::Sections {
                    seen: SectionsSeen {
                        types: true,
                        ..seen
                    },
                },
            ),
        ),
        Sort::Constants => only_if(
            !seen.constants,
            two(
                Part::Names {
                    listing: Listing::Constants,
                },
                Part::Sections {
                    seen: SectionsSeen {
                        constants: true,
                        ..seen
                    },
                },
            ),
        ),
        Sort::Predicates => only_if(
            !seen.predicates,
            two(
                Part::Predicates,
                Part::Sections {
                    seen: SectionsSeen {
                        predicates: true,
                        ..seen
                    },
                },
            ),
        ),
        Sort::Functions => only_if(
            !seen.functions,
            two(
                Part::Functions,
                Part::Sections {
                    seen: SectionsSeen {
                        functions: true,
                        ..seen
                    },
                },
            ),
        ),
        Sort::Action => two(Part::ActionName, Part::Sections { seen }),
        _ => Next::Refused,
    }
}

/// `(NAME VARIABLES)`, the name not reserved.
pub fn predicate_name(sort: Sort) -> Next
    ensures { result ≡ predicate_name sort }
{
    only_if(
        is_free_sort(sort),
        one(Part::Variables {
            owner: Owner::Predicate,
        }),
    )
}

/// `(NAME VARIABLES)` of a function, the name not reserved.
pub fn function_name(sort: Sort) -> Next
    ensures { result ≡ function_name sort }
{
    only_if(
        is_free_sort(sort),
        one(Part::Variables {
            owner: Owner::Function,
        }),
    )
}

/// After a function: the dash before its type.
pub fn function_tail(sort: Sort) -> Next
    ensures { result ≡ function_tail sort }
{
    match sort {
        Sort::Dash => two(Part::FunctionType, Part::Functions),
        _ => Next::Refused,
    }
}

/// The only type of functions.
pub fn function_type(sort: Sort) -> Next
    ensures { result ≡ function_type sort }
{
    match sort {
        Sort::NumberType => Next::Nothing,
        _ => Next::Refused,
    }
}
