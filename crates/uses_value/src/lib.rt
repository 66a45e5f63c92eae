//! Callers of `jser_value`, as a writer of streams and a store of messages need them. What each promises follows
//! from the clauses of the calls that it makes.
#![tactic(auto)]

pub mod admission;
pub mod sameness;
#[cfg(test)]
mod tests;
pub mod writing;
