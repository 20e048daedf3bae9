//! Tests of reachability in small worlds.
#![tactic(auto)]

#[cfg(test)]
mod checking;
#[cfg(test)]
mod reaching;
