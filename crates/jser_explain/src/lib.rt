//! Why a stream is refused, in words: what the reason means, the bytes, the class, the piece of the filter that decides, and
//! what is open where the fault is.
//!
//! `explain` prints the line of `check` and these lines. `print_why` prints them of bytes that were checked.
#![tactic(auto)]

mod answer;
mod hint;
mod line;
mod opened;
mod piece;
mod sentence;
mod short;
mod token;
mod why;

pub use answer::explain;
pub use why::{WhyFault, print_why};
