//! The rules of names: which words of a domain, a problem or a plan break one, and what the words
//! of a plan mean.
#![tactic(auto)]

mod arities;
mod calls;
mod checking;
mod climbing;
mod firsts;
mod forests;
mod groups;
mod heads;
mod kind;
mod known;
mod laws;
mod listing;
mod misnaming;
mod name_tables;
mod names;
mod plan;
mod repeats;
mod role;
mod rules;
mod step;
mod terms;
mod type_tree;
mod values_twice;
mod words;

pub use arities::Arities;
pub use checking::{check_domain_names, check_names, check_problem_names};
pub use firsts::{SignedList, TypedList};
pub use groups::{is_term, param_counts, term_counts, type_places};
pub use heads::Heads;
pub use kind::Kind;
pub use known::{Base, Known};
pub use laws::{law_names, law_plans, law_steps, law_texts};
pub use name_tables::{CurrentAction, Names, Tables};
pub use names::{NameTable, Named};
pub use plan::read_plan;
pub use repeats::is_declared_again;
pub use role::{Role, Says, Word, is_action, is_param, role_at};
pub use type_tree::TypeTree;
pub use words::words_of;
