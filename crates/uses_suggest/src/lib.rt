//! Callers of `jser_suggest`: what the promises of the filter that it suggests are worth to one who parses it.
#![tactic(auto)]

pub mod least;
pub mod limits;
pub mod source;
#[cfg(test)]
mod tests;
