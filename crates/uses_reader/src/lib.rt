//! Callers of `jser_reader`, whose contracts are its promises in one sentence each and follow from its public clauses alone.
//! And its tests: streams from the format, and what a caller is answered. They use nothing but the public calls, and the
//! library is not proved a second time for them.
#![tactic(auto)]

pub mod asking;
pub mod classes;
pub mod cuts;
pub mod showing;
pub mod standing;
pub mod taking;
#[cfg(test)]
mod tests;
