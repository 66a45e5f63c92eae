//! What the tests of several crates share: sinks and a source, and worked streams of the format with their names.
#![tactic(auto)]

mod compared;
mod page;
mod pieces;
pub mod streams;

pub use compared::Compared;
pub use page::Page;
pub use pieces::Pieces;
