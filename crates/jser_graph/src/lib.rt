//! A stream by its handles, with its tree: the index of jser_index, and the contents of the stream as a value.
//!
//! ```rust
//! use jser_graph::{Graph, NodeKind};
//! use jser_reader::Stop;
//! use std::alloc::Global;
//!
//! /// Whether a handle of the first epoch, as the stream writes it, is that of an object.
//! fn names_an_object(alloc: Global, bytes: &[u8], handle: u32) -> Result<bool, Stop> {
//!     let graph = Graph::read(alloc, bytes)?;
//!     Ok(
//!         graph
//!             .node(0, handle)
//!             .is_some_and(|node| node.kind == NodeKind::Object),
//!     )
//! }
//! ```
#![tactic(auto)]

mod graph;

pub use graph::Graph;
pub use jser_index::{GraphFault, Node, NodeKind};
