//! The vocabulary of the words of a domain, and of a problem after its domain's.
#![tactic(auto)]

mod formed;
mod laws;
mod vocabularies;
mod vocabulary_firsts;
mod vocabulary_lists;
mod vocabulary_types;

pub use formed::law_formed;
pub use laws::law_vocabularies;
pub use vocabularies::{vocabulary_of, vocabulary_with};
