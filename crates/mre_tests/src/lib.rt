//! Which words make a request, and how calls end where a file is past its limit.
#![tactic(auto)]

#[cfg(test)]
mod top;
