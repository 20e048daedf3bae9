//! The table of the grammars: what is due after each part and token.
ghost use Rattle.std.specs.Prelude.{◌≡◌};
ghost use Rattle.pddl_form.specs.Table.{after_problem_word, after_word, after_open, may_close};
ghost use Rattle.pddl_form.specs.Table.{after_close};

use crate::actions::{
    action_name, atom_head, condition_head, cost, cost_head, effect_head, key, terms, total_word,
};
use crate::domains::{
    domain_define, domain_word, function_name, function_tail, function_type, predicate_name,
    section,
};
use crate::names::is_name_sort;
use crate::next::{Next, one, only_if, two};
use crate::parts::{Owner, Part};
use crate::problems::{
    fact_head, goal_head, metric, objects, of_domain_word, problem_define, problem_word, statement,
    valued_head,
};
use crate::seen::{have_all_stood, no_statements};
use crate::sort::Sort;
use crate::typed::{names, names_more, variables, variables_more};

// What is due after a word where a part of a problem was due.
fn after_problem_word(part: Part, sort: Sort) -> Next
    ensures { result ≡ after_problem_word part sort }
{
    match part {
        Part::ProblemDefine => problem_define(sort),
        Part::ProblemWord => problem_word(sort),
        Part::ProblemName => only_if(is_name_sort(sort), one(Part::Close)),
        Part::OfDomainWord => of_domain_word(sort),
        Part::OfDomainName => only_if(is_name_sort(sort), one(Part::Close)),
        Part::Statement { seen } => statement(seen, sort),
        Part::FactHead => fact_head(sort),
        Part::ValuedHead => valued_head(sort),
        Part::Number => cost(sort),
        Part::GoalHead => goal_head(sort),
        Part::Objects => objects(sort),
        Part::Metric => metric(sort),
        _ => Next::Refused,
    }
}

/// What is due after a word, in place of the part.
pub fn after_word(part: Part, sort: Sort) -> Next
    ensures { result ≡ after_word part sort }
{
    match part {
        Part::DomainDefine => domain_define(sort),
        Part::DomainWord => domain_word(sort),
        Part::DomainName => only_if(is_name_sort(sort), one(Part::Close)),
        Part::Section { seen } => section(seen, sort),
        Part::Words => one(Part::Words),
        Part::Names { listing } => names(listing, sort),
        Part::NamesMore { listing } => names_more(listing, sort),
        Part::NameType { listing } => only_if(is_name_sort(sort), Next::Nothing),
        Part::PredicateName => predicate_name(sort),
        Part::Variables { owner } => variables(owner, sort),
        Part::VariablesMore { owner } => variables_more(owner, sort),
        Part::VariableType { owner } => only_if(is_name_sort(sort), Next::Nothing),
        Part::FunctionName => function_name(sort),
        Part::FunctionTail => function_tail(sort),
        Part::FunctionType => function_type(sort),
        Part::ActionName => action_name(sort),
        Part::Keys { seen } => key(seen, sort),
        Part::ConditionHead => condition_head(sort),
        Part::Terms => terms(sort),
        Part::EffectHead => effect_head(sort),
        Part::NegatedHead => atom_head(sort),
        Part::TotalWord => total_word(sort),
        Part::Cost => cost(sort),
        Part::CostHead => cost_head(sort),
        _ => after_problem_word(part, sort),
    }
}

/// What is due after a `(`, in place of the part.
pub fn after_open(part: Part) -> Next
    ensures { result ≡ after_open part }
{
    match part {
        Part::Domain => one(Part::DomainDefine),
        Part::DomainHead => one(Part::DomainWord),
        Part::Sections { seen } => one(Part::Section { seen }),
        Part::Predicates => two(Part::PredicateName, Part::Predicates),
        Part::Functions => two(Part::FunctionName, Part::FunctionTail),
        Part::FunctionTail => two(Part::FunctionName, Part::FunctionTail),
        Part::ParameterList => one(Part::Variables {
            owner: Owner::Action,
        }),
        Part::Condition => one(Part::ConditionHead),
        Part::Conditions => two(Part::ConditionHead, Part::Conditions),
        Part::Effect => one(Part::EffectHead),
        Part::Effects => two(Part::EffectHead, Part::Effects),
        Part::Negated => two(Part::NegatedHead, Part::Close),
        Part::Total => one(Part::TotalWord),
        Part::Cost => two(Part::CostHead, Part::Close),
        Part::Problem => one(Part::ProblemDefine),
        Part::ProblemHead => one(Part::ProblemWord),
        Part::OfDomain => two(
            Part::OfDomainWord,
            Part::Statements {
                seen: no_statements(),
            },
        ),
        Part::Statements { seen } => only_if(!have_all_stood(seen), one(Part::Statement { seen })),
        Part::Facts => two(Part::FactHead, Part::Facts),
        Part::Valued => one(Part::ValuedHead),
        Part::Goal => two(Part::GoalHead, Part::Close),
        Part::Goals => two(Part::GoalHead, Part::Goals),
        _ => Next::Refused,
    }
}

/// Whether the part may end with its `)`.
pub fn may_close(part: Part) -> bool
    ensures { result ≡ may_close part }
{
    match part {
        Part::Close => true,
        Part::Sections { .. } => true,
        Part::Words => true,
        Part::Names { .. } => true,
        Part::NamesMore { .. } => true,
        Part::Predicates => true,
        Part::Variables { .. } => true,
        Part::VariablesMore { .. } => true,
        Part::Functions => true,
        Part::FunctionTail => true,
        Part::Keys { .. } => true,
        Part::ConditionHead => true,
        Part::Conditions => true,
        Part::Terms => true,
        Part::EffectHead => true,
        Part::Effects => true,
        Part::Facts => true,
        Part::GoalHead => true,
        Part::Goals => true,
        Part::Objects => true,
        Part::Statements { seen } => seen.init && seen.goal,
        _ => false,
    }
}

/// What is due after a `)`, in place of the part.
pub fn after_close(part: Part) -> Next
    ensures { result ≡ after_close part }
{
    only_if(may_close(part), Next::Nothing)
}
