//! Callers of the commands' crates: what the program does, in the words of one who runs it. What they promise follows from the
//! clauses of the calls that they make.
#![tactic(auto)]

pub mod answers;
pub mod explains;
pub mod scans;
pub mod settings;
pub mod suggests;
#[cfg(test)]
mod tests;
pub mod texts;
