//! The reader: takes a Java object serialization stream in pieces of any sizes, and lends its tokens one by one
//! (Java Object Serialization Specification, chapter 6). It keeps no tree and no text but the one class name
//! that is being read.
//!
//! ```rust
//! use jser_reader::{OpenGate, Reader, Stop, Totals};
//! use std::alloc::Global;
//!
//! /// The counts of a stream that comes in two pieces.
//! fn counts_of(alloc: Global, first: &[u8], second: &[u8]) -> Result<Totals, Stop> {
//!     let mut reader = Reader::new(alloc, OpenGate);
//!     reader.skip(first)?;
//!     reader.skip(second)?;
//!     reader.finish()
//! }
//! ```
#![tactic(auto)]

mod cut;
mod field_list;
mod frame;
mod gate;
mod item;
pub mod laws;
mod machine;
mod phase;
mod reader;
mod refusal;
mod stack;
mod tag;
mod tally;
mod visit;

pub use gate::{Answer, Gate, Limits, OpenGate};
pub use item::{Field, Item, Step, Totals, Whole};
pub use reader::Reader;
pub use refusal::{Reason, Refusal, Stop};
pub use visit::{FeedFault, Visit, Whereabouts};
