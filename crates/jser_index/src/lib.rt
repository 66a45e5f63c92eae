//! A stream kept by its handles: what each handle names, the text of every string, the checked names, the text of show,
//! and the bytes as they were read.
#![tactic(auto)]

mod begun;
mod decode;
mod graph;
mod lists;
mod node;
mod nodes;
mod output;
mod owners;
mod part;
mod read;
mod show;
mod spot;
mod strings;
mod survey;
mod texts;
mod units;
mod walked;

pub use graph::Index;
pub use node::{Node, NodeKind};
pub use output::GraphFault;
pub use walked::{text_units, walk_along};
