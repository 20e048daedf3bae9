//! Tests of the first passes over PDDL, as tables from bytes: the words, lists and lines of a
//! well-formed text, or the first fault.
#![tactic(auto)]

#[cfg(test)]
mod forms;
#[cfg(test)]
mod words;
