//! Tests of models: judgements of plans in models from texts of PDDL, and which lists make a
//! vocabulary or a model.
#![tactic(auto)]

#[cfg(test)]
mod judging;
#[cfg(test)]
mod tables;
#[cfg(test)]
mod vocabularies;
