//! The example of the README of `jser_graph`.

// README: jser_graph
use jser_graph::{Graph, NodeKind};
use jser_reader::Stop;
use std::alloc::Global;

/// Whether a handle of the first epoch, as the stream writes it, is that of an object.
fn names_an_object(alloc: Global, bytes: &[u8], handle: u32) -> Result<bool, Stop> {
    let graph = Graph::read(alloc, bytes)?;
    Ok(
        graph
            .node(0, handle)
            .is_some_and(|node| node.kind == NodeKind::Object),
    )
}
// end

use test_support::streams::LINKED_PAIR;

#[test]
fn objects_by_handle(rt: HostRuntime) {
    let alloc = rt.alloc();
    assert_eq!(rt; names_an_object(alloc, LINKED_PAIR, 0x7E_0002), Ok(true));
    assert_eq!(rt; names_an_object(alloc, LINKED_PAIR, 0x7E_0000), Ok(false));
}
