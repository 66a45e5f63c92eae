//! Callers of `jser_anywhere`, and of `jser_check` with names at any place, whose contracts are promises of theirs in one sentence each and
//! follow from public clauses alone; and the tests of `jser_check`.
#![tactic(auto)]

pub mod exact;
pub mod messages;
pub mod places;
pub mod spelled;
#[cfg(test)]
mod tests;
