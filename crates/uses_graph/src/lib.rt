//! Callers of `jser_graph`: what a graph tells, in words of the one list that the bytes of its stream spell. What they promise
//! follows from the public clauses alone. And the tests of `jser_graph` and of `jser_printer`: what the graphs of worked streams
//! name, hand out and show, and the words of the texts. They use nothing but the public calls, and the libraries are not proved
//! a second time for them.
#![tactic(auto)]

pub mod opening;
#[cfg(test)]
mod tests;
pub mod told;
