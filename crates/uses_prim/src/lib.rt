//! Callers of `jser_prim`, as readers and writers of streams need them. What each promises follows from the
//! clauses of the calls that it makes.
#![tactic(auto)]

pub mod heads;
pub mod numbers;
pub mod records;
pub mod sinks;
pub mod sources;
pub mod spelling;
#[cfg(test)]
mod tests;
pub mod texts;
