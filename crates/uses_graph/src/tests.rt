//! Graphs of worked streams: what their handles name, their texts and names, and what they hand out again.
//!
//! Each call of a library has a function of its own here, with no contract: what a test compares is then proved without all
//! that the library promises, which takes minutes less.

use jser_graph::{Graph, GraphFault, Node, NodeKind};
use jser_prim::Sink;
use jser_reader::{Reason, Refusal, Stop};
use jser_value::{Contents, ValueCause, encode};
use std::alloc::{AllocError, AllocGlobal};
use std::process::Abort;
use std::test::Fail;
use test_support::streams::{LINKED_PAIR, RESET_EPOCHS, nest};
use test_support::{Compared, Page};

mod example;
mod memory;
mod rows;
mod show;
mod words;

/// The graph of a stream that is accepted.
fn graph_of(rt: &(impl Abort + AllocGlobal), bytes: &[u8]) -> Graph {
    match Graph::read(rt.alloc(), bytes) {
        Ok(graph) => graph,
        Err(_) => panic!(rt; "no stream, or no memory"),
    }
}

/// Hands the graph of a stream that is accepted to what tests it, so that making and dropping one is proved once and not in
/// each test.
fn with_graph<R: Abort + AllocGlobal, F: FnOnce(&R, &Graph)>(rt: &R, bytes: &[u8], test: F)
    requires { F.IsAlwaysCallable test }
{
    let graph = graph_of(rt, bytes);
    test(rt, &graph)
}

/// Writes the graph.
fn write<W: Sink>(rt: &impl AllocGlobal, graph: &Graph, sink: &mut W) -> Result<u64, GraphFault> {
    graph.write_to(rt.alloc(), sink)
}

/// The tree of the graph.
fn tree_of(rt: &impl AllocGlobal, graph: &Graph) -> Result<Contents, ValueCause> {
    graph.contents(rt.alloc())
}

/// Writes the tree, and returns whether it could.
fn write_tree<W: Sink>(contents: &Contents, sink: &mut W) -> bool {
    encode(contents, sink).is_ok()
}

/// The graph hands out the bytes from which it was read, and its tree is written as these bytes too.
fn hands_out(rt: &(impl Abort + AllocGlobal), name: &str, bytes: &[u8]) {
    with_graph(rt, bytes, |rt, graph| {
        is_written(rt, name, graph, bytes);
        has_tree(rt, name, graph, bytes);
    });
}

/// The tree of the graph is written as these bytes.
fn has_tree(rt: &(impl Abort + AllocGlobal), name: &str, graph: &Graph, bytes: &[u8]) {
    match tree_of(rt, graph) {
        Ok(contents) => is_encoded(rt, name, &contents, bytes),
        Err(cause) => panic!(rt; "{name}: {cause:?}"),
    }
}

/// The graph is written as these bytes, which are counted.
fn is_written(rt: &(impl Abort + AllocGlobal), name: &str, graph: &Graph, bytes: &[u8]) {
    let mut sink = Compared::new(bytes);
    assert_eq!(rt;
        write(rt, graph, &mut sink),
        Ok(bytes.len() as u64),
        "{name}"
    );
    assert!(rt; sink.is_whole(), "{name}");
}

/// The tree is written as these bytes.
fn is_encoded(rt: &impl Abort, name: &str, contents: &Contents, bytes: &[u8]) {
    let mut sink = Compared::new(bytes);
    assert!(rt; write_tree(contents, &mut sink), "{name}");
    assert!(rt; sink.is_whole(), "{name}");
}

/// The handle of this epoch names this node, or none.
fn names(rt: &impl Abort, graph: &Graph, epoch: u64, handle: u32, node: Option<Node>) {
    assert_eq!(rt;
        graph.node(epoch, handle),
        node,
        "{handle} of epoch {epoch}"
    );
}

/// The handle of this epoch is that of a string of this text, or of none.
fn has_text(rt: &impl Abort, graph: &Graph, epoch: u64, handle: u32, text: Option<&[u16]>) {
    assert_eq!(rt;
        graph.text(epoch, handle),
        text,
        "{handle} of epoch {epoch}"
    );
}

/// The graph has these checked names, and no others.
fn has_names(rt: &impl Abort, graph: &Graph, names: &[&[u16]]) {
    assert_eq!(rt; graph.name_count(), names.len());
    for (number, name) in names.iter().enumerate() {
        is_name(rt, graph, number, Some(*name));
    }
    is_name(rt, graph, names.len(), None);
}

/// The checked name with this number is this one, or there is none.
fn is_name(rt: &impl Abort, graph: &Graph, number: usize, name: Option<&[u16]>) {
    assert_eq!(rt; graph.name_at(number), name, "name {number}");
}

/// A node.
fn node(kind: NodeKind, tag_byte: u64) -> Option<Node> {
    Some(Node { kind, tag_byte })
}

/// What the handles of the linked pair name.
fn is_linked_pair(rt: &impl Abort, graph: &Graph) {
    names(rt, graph, 0, 0x7E_0000, node(NodeKind::PlainDesc, 5));
    names(rt, graph, 0, 0x7E_0002, node(NodeKind::Object, 4));
    names(rt, graph, 0, 0x7E_0003, node(NodeKind::Object, 53));
    names(rt, graph, 0, 0x7E_0004, None);
    names(rt, graph, 0, 0x7D_FFFF, None);
    names(rt, graph, 1, 0x7E_0000, None);
    let text = [0x4C, 0x4C, 0x69, 0x73, 0x74, 0x3B];
    has_text(rt, graph, 0, 0x7E_0001, Some(&text));
    has_text(rt, graph, 0, 0x7E_0000, None);
    has_names(rt, graph, &[&[0x4C, 0x69, 0x73, 0x74]]);
}

#[test]
fn graph_of_linked_pair(rt: HostRuntime) {
    with_graph(&rt, LINKED_PAIR, |rt, graph| is_linked_pair(rt, graph));
}

/// What the handles of the two epochs name.
fn has_two_epochs(rt: &impl Abort, graph: &Graph) {
    names(rt, graph, 1, 0x7E_0000, node(NodeKind::Text, 9));
    has_text(rt, graph, 1, 0x7E_0000, Some(&[0x62]));
    has_text(rt, graph, 0, 0x7E_0000, Some(&[0x61]));
    names(rt, graph, 2, 0x7E_0000, None);
    has_names(rt, graph, &[]);
}

#[test]
fn graph_of_reset_epochs(rt: HostRuntime) {
    with_graph(&rt, RESET_EPOCHS, |rt, graph| has_two_epochs(rt, graph));
}

#[test]
fn refused(rt: HostRuntime) {
    let refusal = Refusal {
        from_byte: 4,
        to_byte: 5,
        reason: Reason::BadTag,
    };
    match Graph::read(rt.alloc(), b"\xAC\xED\x00\x05\x78") {
        Err(stop) => assert!(rt; stop == Stop::Refused(refusal)),
        Ok(_) => panic!(rt; "no content begins with this tag"),
    }
    let cut = Refusal {
        from_byte: 0,
        to_byte: 2,
        reason: Reason::Truncated,
    };
    match Graph::read(rt.alloc(), b"\xAC\xED") {
        Err(stop) => assert!(rt; stop == Stop::Refused(cut)),
        Ok(_) => panic!(rt; "half a header"),
    }
}

/// The graph of arrays 1,000 deep, which are these bytes.
fn is_nest_of_1000(rt: &(impl Abort + AllocGlobal), graph: &Graph, bytes: &[u8]) {
    let innermost = node(NodeKind::Array, 10_009);
    names(rt, graph, 0, 0x7E_0000 + 1000, innermost);
    has_length(rt, bytes, 10_020);
    is_written(rt, "arrays 1,000 deep", graph, bytes);
    has_no_tree(rt, graph);
}

#[test]
fn nest_1000(rt: HostRuntime) -> Result<(), Fail> {
    let bytes = nest(rt.alloc(), 1000)?;
    with_graph(&rt, &bytes, |rt, graph| is_nest_of_1000(rt, graph, &bytes));
    Ok(())
}

/// There are so many bytes.
fn has_length(rt: &impl Abort, bytes: &[u8], length: usize) {
    assert_eq!(rt; bytes.len(), length);
}

/// A tree is at most 1,000 deep.
fn has_no_tree(rt: &(impl Abort + AllocGlobal), graph: &Graph) {
    match tree_of(rt, graph) {
        Err(cause) => assert!(rt; cause == ValueCause::TooDeep),
        Ok(_) => panic!(rt; "a tree is at most 1,000 deep"),
    }
}

/// To a page that has room for so many of its bytes, just these are written, and all to one that has room for all.
fn writes_fronts(rt: &(impl Abort + AllocGlobal), graph: &Graph) {
    for room in 0..69_usize {
        writes_front(rt, graph, &LINKED_PAIR[..room]);
    }
    let mut page = Page::new(rt.alloc(), 1, 69);
    let count = write(rt, graph, &mut page);
    page_has(rt, &page, count, LINKED_PAIR);
}

#[test]
fn write_fails_anywhere(rt: HostRuntime) {
    with_graph(&rt, LINKED_PAIR, |rt, graph| writes_fronts(rt, graph));
}

/// To a page that has no room for more than these bytes, they are written, and then the fault counts them.
fn writes_front(rt: &(impl Abort + AllocGlobal), graph: &Graph, front: &[u8]) {
    let mut page = Page::new(rt.alloc(), 7, front.len());
    let count = write(rt, graph, &mut page);
    page_is_full(rt, &page, count, front);
}

/// The page was given these bytes, which were counted.
fn page_has(rt: &impl Abort, page: &Page, count: Result<u64, GraphFault>, bytes: &[u8]) {
    assert!(rt; page.bytes.as_slice() == bytes);
    assert_eq!(rt; count, Ok(bytes.len() as u64));
}

/// The page failed when it had been given these bytes, which the fault counts.
fn page_is_full(rt: &impl Abort, page: &Page, count: Result<u64, GraphFault>, front: &[u8]) {
    let written = front.len() as u64;
    assert_eq!(rt; count, Err(GraphFault::Write { written }));
    assert!(rt; page.failed());
    assert!(rt; page.bytes.as_slice() == front);
}
