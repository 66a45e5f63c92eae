//! Many streams in one input: each record is checked, and gets one line, in order.
//!
//! A `Layout` says how records lie in the input. `run_records` reads them from any `Source`, and writes their answers, or those
//! that are accepted, to any `Sink`.
#![tactic(auto)]

mod answer;
mod clerk;
mod current;
mod frames;
mod header;
mod inbox;
mod judge;
mod key;
mod layout;
mod line_end;
mod lines;
mod parts;
mod reading;
mod run;
mod sign;
mod sized;
mod words;

pub use answer::Answer;
pub use layout::{Layout, Lines, Shape, Spelling};
pub use run::{Asked, run_records};
