//! Callers of `jser_filter`, as a broker and an operator write them. What each promises follows from the clauses
//! of the calls that it makes.
#![tactic(auto)]

pub mod admission;
pub mod settings;
#[cfg(test)]
mod tests;
pub mod texts;
