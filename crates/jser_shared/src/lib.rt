//! A filter that several checks own together, as what holds the filter of each one's gate.
#![tactic(auto)]

mod filter;

pub use filter::SharedFilter;
