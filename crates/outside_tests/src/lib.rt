//! Shelves, sinks and streams, on tables.
#![tactic(auto)]

#[cfg(test)]
mod shelves;
