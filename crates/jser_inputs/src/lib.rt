//! Streams that come as text: hexadecimal digits or base64, with white space anywhere.
//!
//! `Decoded` is a source over another one. It gives the bytes that the other's text spells, a piece at a time, and keeps
//! none of the text. `Decoder` does the same in a buffer of the caller's. `Input` is a source that can say why it failed.
#![tactic(auto)]

mod decode;
mod decoded;
mod decoder;
mod fault;
mod form;
mod group;
mod place;
mod space;
mod spot;

pub use decoded::Decoded;
pub use decoder::Decoder;
pub use fault::{Input, InputFault};
pub use form::Form;
