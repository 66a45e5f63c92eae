//! Callers of `jser_check`, whose contracts are its promises in one sentence each and follow from its public clauses alone. And
//! its tests: streams from the format under filters, and what a caller is answered. They use nothing but the public calls, and
//! the library is not proved a second time for them.
#![tactic(auto)]

pub mod devices;
pub mod fronts;
pub mod headline;
pub mod pieces;
pub mod readers;
#[cfg(test)]
mod tests;
