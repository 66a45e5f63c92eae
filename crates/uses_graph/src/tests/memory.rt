//! To be run with each allocation refused in turn: each call answers out of memory, or the right thing.

use crate::tests::show::{LINKED_PAIR_TEXT, show};
use crate::tests::{is_encoded, is_name, is_written, tree_of};
use jser_graph::{Graph, GraphFault};
use jser_reader::Stop;
use jser_value::ValueCause;
use std::alloc::AllocGlobal;
use std::process::Abort;
use test_support::Compared;
use test_support::streams::{LINKED_PAIR, STREAMS};

/// The text of `show`, or a beginning of it of which the fault tells the length.
fn shows(rt: &(impl Abort + AllocGlobal), graph: &Graph) -> bool {
    let mut sink = Compared::new(LINKED_PAIR_TEXT);
    match show(rt, graph, &mut sink) {
        Ok(_) => {
            assert!(rt; sink.is_whole());
            true
        }
        Err(fault) => {
            let left = sink.left();
            assert!(rt; sink.is_front() && left <= LINKED_PAIR_TEXT.len());
            let written = (LINKED_PAIR_TEXT.len() - left) as u64;
            assert_eq!(rt; fault, GraphFault::OutOfMemory { written });
            false
        }
    }
}

/// The tree of the stream, which has these bytes.
fn hands_out_the_tree(rt: &(impl Abort + AllocGlobal), graph: &Graph, bytes: &[u8]) -> bool {
    match tree_of(rt, graph) {
        Ok(contents) => {
            is_encoded(rt, "the tree", &contents, bytes);
            true
        }
        Err(cause) => {
            assert!(rt; cause == ValueCause::OutOfMemory);
            false
        }
    }
}

#[test]
fn right_or_out_of_memory(rt: HostRuntime) {
    match Graph::read(rt.alloc(), LINKED_PAIR) {
        Ok(graph) => {
            let shown = shows(&rt, &graph);
            let handed_out = hands_out_the_tree(&rt, &graph, LINKED_PAIR);
            is_name(&rt, &graph, 0, Some(&[0x4C, 0x69, 0x73, 0x74]));
            is_written(&rt, "the bytes", &graph, LINKED_PAIR);
            if !shown || !handed_out {
                let _ = println!(rt; "refused");
            }
        }
        Err(stop) => {
            assert_eq!(rt; stop, Stop::OutOfMemory);
            let _ = println!(rt; "refused");
        }
    }
}

#[test]
fn each_stream_or_out_of_memory(rt: HostRuntime) {
    for (name, bytes) in STREAMS {
        match Graph::read(rt.alloc(), bytes) {
            Ok(graph) => {
                is_written(&rt, name, &graph, bytes);
                hands_out_the_tree(&rt, &graph, bytes);
            }
            Err(stop) => assert_eq!(rt; stop, Stop::OutOfMemory),
        }
    }
}
