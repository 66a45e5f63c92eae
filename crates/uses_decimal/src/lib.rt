//! Laws of the shortest decimal, so that nobody has to believe how it is found.
#![tactic(auto)]

pub mod floats;
pub mod laws;
#[cfg(test)]
mod tests;
