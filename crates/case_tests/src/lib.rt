//! Tests of case tables, and of models that share their rows.
#![tactic(auto)]

#[cfg(test)]
mod cases;
#[cfg(test)]
mod making;
#[cfg(test)]
mod models;
#[cfg(test)]
mod tables;
