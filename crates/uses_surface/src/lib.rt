//! Each public call that programs hold on to, with its types by name, as such a program writes it: what it makes outlives its
//! input, a gate is made of six answers, and each choice is matched whole. A change that takes a call away, or gives it another
//! shape, does not compile. What the calls promise is said by their clauses, and used by the other crates of this kind.
#![tactic(auto)]

pub mod checks;
pub mod commands;
pub mod filters;
pub mod graphs;
pub mod readers;
pub mod tables;
pub mod texts;
pub mod values;
