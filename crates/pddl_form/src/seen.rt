//! The sections and keys that have occurred so far.
ghost use Rattle.std.specs.Prelude.{◌≡◌};
ghost use Rattle.pddl_form.specs.Rows.{no_sections, no_keys, no_statements, have_all_stood};

use crate::parts::{KeysSeen, SectionsSeen, StatementsSeen};

pub fn no_sections() -> SectionsSeen
    ensures { result ≡ no_sections }
{
    SectionsSeen {
        requirements: false,
        types: false,
        constants: false,
        predicates: false,
        functions: false,
    }
}

pub fn no_keys() -> KeysSeen
    ensures { result ≡ no_keys }
{
    KeysSeen {
        parameters: false,
        precondition: false,
        effect: false,
    }
}

pub fn no_statements() -> StatementsSeen
    ensures { result ≡ no_statements }
{
    StatementsSeen {
        requirements: false,
        objects: false,
        init: false,
        goal: false,
        metric: false,
    }
}

/// Whether each section of a problem has occurred, so that no further one may come.
pub fn have_all_stood(seen: StatementsSeen) -> bool
    ensures { result ≡ have_all_stood seen }
{
    seen.init && seen.goal && seen.requirements && seen.objects && seen.metric
}
