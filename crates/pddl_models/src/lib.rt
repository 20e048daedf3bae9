//! What the words of a domain and of a problem say over a vocabulary: the domain, and the model of
//! both.
#![tactic(auto)]

mod atoms_said;
mod bodies;
mod body;
mod domain;
mod facts;
mod laws;
mod models;
mod roles_law;
mod unrepeated;
mod word_tables;

pub use bodies::{bodies_of, domain_of};
pub use body::Body;
pub use domain::Domain;
pub use laws::law_saying;
pub use models::model_of;
pub use roles_law::law_roles;
