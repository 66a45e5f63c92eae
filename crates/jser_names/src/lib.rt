//! The checked names of a stream that comes in pieces, or is whole in memory. It keeps no bytes of the stream but those of one
//! name, unless they are asked for.
#![tactic(auto)]

mod collector;
mod counts;
mod found;
mod keyed;
pub mod laws;
mod named;
mod source;
mod taker;
mod whole;

pub use counts::{NameCount, NameCounts};
pub use found::{Found, names_in};
pub use keyed::Keyed;
pub use named::{NamedStream, bytes_and_names_of};
pub use source::{NamesFault, found_of, names_of};
pub use whole::bytes_of;
