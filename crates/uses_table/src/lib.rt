//! Callers of `jser_table`, as a reader of streams, a broker and an operator write them. What each promises
//! follows from the clauses of the calls that it makes.
#![tactic(auto)]

pub mod classes;
pub mod data;
pub mod epochs;
pub mod fields;
pub mod kept;
pub mod lines;
pub mod names;
pub mod references;
#[cfg(test)]
mod tests;
