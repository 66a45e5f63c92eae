//! The graph of a stream by its handles: jser_graph.

use jser_graph::{Graph, GraphFault, Node, NodeKind};
use jser_prim::Sink;
use jser_reader::Stop;
use jser_value::{Contents, ValueCause};
use std::alloc::Global;

/// The graph of bytes that are given up here: it has its own.
pub fn graph_of(alloc: Global, bytes: Vec<u8>) -> Result<Graph, Stop> {
    let graph: Result<Graph, Stop> = Graph::read(alloc, bytes.as_slice());
    drop(bytes);
    graph
}

/// What a handle names, and where its tag stands.
pub fn node(graph: &Graph, epoch: u64, handle: u32) -> Option<(u8, u64)> {
    let Node { kind, tag_byte } = graph.node(epoch, handle)?;
    let number = match kind {
        NodeKind::Text => 0,
        NodeKind::PlainDesc => 1,
        NodeKind::ProxyDesc => 2,
        NodeKind::ClassObject => 3,
        NodeKind::Array => 4,
        NodeKind::EnumConst => 5,
        NodeKind::Object => 6,
    };
    Some((number, tag_byte))
}

/// The units of a string, or those of the last checked name.
pub fn text(graph: &Graph, epoch: u64, handle: u32) -> Option<&[u16]> {
    let last: usize = graph.name_count().checked_sub(1)?;
    match graph.text(epoch, handle) {
        Some(text) => Some(text),
        None => graph.name_at(last),
    }
}

/// The tree of the stream.
pub fn tree(graph: &Graph, alloc: Global) -> Result<Contents, ValueCause> {
    graph.contents(alloc)
}

/// Writes the bytes of the stream, or its text, and says how much went out.
pub fn written<W: Sink>(graph: &Graph, alloc: Global, sink: &mut W, as_text: bool) -> u64 {
    let went = if as_text {
        graph.show::<W>(alloc, sink)
    } else {
        graph.write_to::<W>(alloc, sink)
    };
    match went {
        Ok(length) => length,
        Err(GraphFault::Write { written }) => written,
        Err(GraphFault::OutOfMemory { written }) => written,
    }
}
