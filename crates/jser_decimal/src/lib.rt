//! What the bits of a float mean, and the shortest decimal that reads back as it: what Java prints.
#![tactic(auto)]

mod big;
mod float;
mod shortest;

pub use float::{Float, Magnitude, double_of, single_of};
pub use shortest::Decimal;
