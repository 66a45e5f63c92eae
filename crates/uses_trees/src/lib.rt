//! A caller of `jser_trees` and `jser_value`, as a store needs it that writes contents and reads them again. What it
//! promises follows from the clauses of the calls that it makes. And the tests of `jser_trees`: they use nothing but its
//! public calls, and the library is not proved a second time for them.
#![tactic(auto)]

pub mod store;
#[cfg(test)]
mod tests;
