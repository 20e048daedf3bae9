//! Tests of tasks on numbers, on small ones: judging, searching, cuts and bound proofs.
#![tactic(auto)]

#[cfg(test)]
mod bounds;
#[cfg(test)]
mod cuts;
#[cfg(test)]
mod forming;
#[cfg(test)]
mod making;
#[cfg(test)]
mod tasks;
