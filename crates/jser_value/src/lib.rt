//! Trees of a Java object serialization stream (Java Object Serialization Specification, section 6.4): the
//! check that a list of contents obeys the format, and the encoder that writes it. What a stream is stands in
//! jser_grammar; `laws` has what holds of the definitions alone.
#![tactic(auto)]

mod check;
mod contents;
mod depth;
mod encoder;
mod handles;
pub mod laws;
#[doc(hidden)]
pub mod layers;
mod parts;
mod size;
mod tree;

pub use contents::{Contents, ValueCause, ValueFault};
pub use encoder::{EncodeFault, encode};
#[doc(hidden)]
pub use handles::Handles;
pub use tree::{
    Body, ClassPlace, Content, Desc, Field, Raw as Prim, Section, Text, TextPlace, Value,
};
