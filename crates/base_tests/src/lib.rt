//! Tests of texts, lists, sets of numbers, the log of nodes, and cubes.
#![tactic(auto)]

#[cfg(test)]
mod cubes;
#[cfg(test)]
mod sets;
