//! Rows of the table: typed lists.
ghost use Rattle.std.specs.Prelude.{◌≡◌};
ghost use Rattle.pddl_form.specs.Typed.{names, names_more, variables, variables_more};

use crate::names::is_name_sort;
use crate::next::{Next, one, only_if, two};
use crate::parts::{Listing, Owner, Part};
use crate::sort::Sort;

/// A name that begins a group of a typed list.
pub fn names(listing: Listing, sort: Sort) -> Next
    ensures { result ≡ names listing sort }
{
    only_if(is_name_sort(sort), one(Part::NamesMore { listing }))
}

/// After a name of a typed list: a further name of the group, or the dash before its type.
pub fn names_more(listing: Listing, sort: Sort) -> Next
    ensures { result ≡ names_more listing sort }
{
    match sort {
        Sort::Dash => two(Part::NameType { listing }, Part::Names { listing }),
        _ => only_if(is_name_sort(sort), one(Part::NamesMore { listing })),
    }
}

/// A variable that begins a group of a typed list.
pub fn variables(owner: Owner, sort: Sort) -> Next
    ensures { result ≡ variables owner sort }
{
    match sort {
        Sort::Variable => one(Part::VariablesMore { owner }),
        _ => Next::Refused,
    }
}

/// After a variable: a further one of the group, or the dash before its type.
pub fn variables_more(owner: Owner, sort: Sort) -> Next
    ensures { result ≡ variables_more owner sort }
{
    match sort {
        Sort::Variable => one(Part::VariablesMore { owner }),
        Sort::Dash => two(Part::VariableType { owner }, Part::Variables { owner }),
        _ => Next::Refused,
    }
}
