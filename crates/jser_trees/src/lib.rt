//! From bytes to trees: a stream that a gate passes, as the list of its contents (Java Object Serialization
//! Specification, section 6.4).
#![tactic(auto)]

mod cursor;
mod gate;
mod handles;
pub mod laws;
mod read;
mod texts;
mod values;

pub use jser_reader::{Gate, OpenGate, Reason, Refusal, Stop};
pub use jser_value::Contents;
pub use read::read_all;
