//! The form of PDDL domains and problems: the words of a text with what each does there, or the
//! first token that no text of the grammar has there.
#![tactic(auto)]

mod actions;
mod domains;
mod faults;
mod laws;
mod names;
mod next;
mod numbers;
mod parts;
mod problems;
mod reading;
mod seen;
mod sort;
mod table;
mod typed;
mod words;

pub use laws::{law_domains, law_forms, law_numbers, law_problems};
pub use next::Next;
pub use numbers::number_of;
pub use parts::{KeysSeen, Listing, Met, Owner, Part, SectionsSeen, StatementsSeen};
pub use reading::{read_domain_form, read_problem_form};
pub use sort::Sort;
pub use words::sort_of;
