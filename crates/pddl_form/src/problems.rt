//! Rows of the table: the sections of a problem.
ghost use Rattle.std.specs.Prelude.{◌≡◌};
ghost use Rattle.pddl_form.specs.Problems.{problem_define, problem_word, of_domain_word, statement};
ghost use Rattle.pddl_form.specs.Problems.{fact_head, valued_head, goal_head, objects, metric};

use crate::names::{is_free_sort, is_name_sort};
use crate::next::{Next, one, only_if, two};
use crate::parts::{Listing, Part, StatementsSeen};
use crate::sort::Sort;

/// `(define (problem NAME) (:domain NAME) SECTION*)`.
pub fn problem_define(sort: Sort) -> Next
    ensures { result ≡ problem_define sort }
{
    match sort {
        Sort::Define => two(Part::ProblemHead, Part::OfDomain),
        _ => Next::Refused,
    }
}

/// `(problem NAME)`.
pub fn problem_word(sort: Sort) -> Next
    ensures { result ≡ problem_word sort }
{
    match sort {
        Sort::Problem => one(Part::ProblemName),
        _ => Next::Refused,
    }
}

/// `(:domain NAME)`.
pub fn of_domain_word(sort: Sort) -> Next
    ensures { result ≡ of_domain_word sort }
{
    match sort {
        Sort::OfDomain => one(Part::OfDomainName),
        _ => Next::Refused,
    }
}

/// Each section of a problem at most once.
pub fn statement(seen: StatementsSeen, sort: Sort) -> Next
    ensures { result ≡ statement seen sort }
{
    match sort {
        Sort::Requirements => only_if(
            !seen.requirements,
            two(
                Part::Words,
                Part::Statements {
                    seen: StatementsSeen {
                        requirements: true,
                        ..seen
                    },
                },
            ),
        ),
        Sort::Objects => only_if(
            !seen.objects,
            two(
                Part::Names {
                    listing: Listing::Objects,
                },
                Part::Statements {
                    seen: StatementsSeen {
                        objects: true,
                        ..seen
                    },
                },
            ),
        ),
        Sort::Init => only_if(
            !seen.init,
            two(
                Part::Facts,
                Part::Statements {
                    seen: StatementsSeen { init: true, ..seen },
                },
            ),
        ),
        Sort::Goal => only_if(
            !seen.goal,
            two(
                Part::Goal,
                Part::Statements {
                    seen: StatementsSeen { goal: true, ..seen },
                },
            ),
        ),
        Sort::Metric => only_if(
            !seen.metric,
            two(
                Part::Metric,
                Part::Statements {
                    seen: StatementsSeen {
                        metric: true,
                        ..seen
                    },
                },
            ),
        ),
        _ => Next::Refused,
    }
}

/// `(= VALUED NUMBER)` or `(NAME NAME*)`.
pub fn fact_head(sort: Sort) -> Next
    ensures { result ≡ fact_head sort }
{
    match sort {
        Sort::Equal => two(Part::Valued, Part::Number),
        _ => only_if(is_free_sort(sort), one(Part::Objects)),
    }
}

/// `(total-cost)` or `(NAME NAME*)`.
pub fn valued_head(sort: Sort) -> Next
    ensures { result ≡ valued_head sort }
{
    match sort {
        Sort::TotalCost => one(Part::Close),
        _ => only_if(is_name_sort(sort), one(Part::Objects)),
    }
}

/// `(and COND*)` or `(NAME NAME*)`.
pub fn goal_head(sort: Sort) -> Next
    ensures { result ≡ goal_head sort }
{
    match sort {
        Sort::And => one(Part::Goals),
        _ => only_if(is_free_sort(sort), one(Part::Objects)),
    }
}

/// A name.
pub fn objects(sort: Sort) -> Next
    ensures { result ≡ objects sort }
{
    only_if(is_name_sort(sort), one(Part::Objects))
}

/// `minimize (total-cost)`.
pub fn metric(sort: Sort) -> Next
    ensures { result ≡ metric sort }
{
    match sort {
        Sort::Minimize => two(Part::Total, Part::Close),
        _ => Next::Refused,
    }
}
